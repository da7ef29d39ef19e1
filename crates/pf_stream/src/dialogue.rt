//! A sitting: lines come in, and each is answered before more is asked for. The one contract of this folder: whatever comes in, and
//! in whatever pieces, what was told when more is asked for is the answers to the lines that are whole so far.

mod ahead;
pub mod answers;
pub mod dialogue;
pub mod fault;
mod lines;
pub mod scripted;
pub mod sitting;
