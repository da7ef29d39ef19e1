//! A dialogue over the streams of a program. The one contract of this folder: what is heard is what a reader gives, no more than is
//! there; what is told goes to a writer, which holds none of it back.

pub mod held;
pub mod hold;
