//! Who sits at a desk and keeps what was answered in a journal. The one contract of this folder: what is kept of an answer is on the
//! disk before the answer is told, all lines that the script got by it, after those before; where it can't be, a crash leaves a front
//! of these lines.

pub mod laws;
pub mod opening;
pub mod recorder;
