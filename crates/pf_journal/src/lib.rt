//! The journal of a desk: lines of text in a file, each batch of them on the disk before it is acknowledged; and who records answers
//! there. The one contract of this crate: whatever a crash leaves at any moment, the file stands for the records from before a batch, or
//! for these and all of the batch; and once a batch was acknowledged, for it too.
#![tactic(auto)]

pub mod batch;
mod contents;
pub mod failed;
pub mod found;
pub mod journal;
pub mod journal_error;
mod lines;
pub mod recorder;
mod shape;
pub mod state;
mod steps;
