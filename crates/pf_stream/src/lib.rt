//! Streams that count their failures, and a dialogue of lines over them. A whole script is read from a `Source`; a text is written to
//! a `Sink`, piece by piece or through a small buffer. The one contract of this crate: a script that was read is all of the reader's
//! bytes, the writer has the text put or a front of it, and a stream failed once where the answer says so, else not at all.
#![tactic(auto)]

pub mod dialogue;
pub mod held_answers;
pub mod output_fault;
pub mod patient;
pub mod pipes;
pub mod reading;
pub mod sink;
pub mod source;
pub mod text_buffer;
pub mod tries;
pub mod writing;
