//! Whether a script fits: what the slots of a run ask of the processors in use, how much more each task may cost, and the
//! verdict. The one contract of this crate: `find` gives from a snapshot the numbers and the verdict by their definitions over
//! the run, and says of which of them it follows that no window is missed, and by how much none is late.
#![tactic(auto)]

pub mod carries;
pub mod findings;
pub mod grow;
pub mod laws;
pub mod strain;
pub mod stretch;
pub mod stretches;
pub mod totals;
pub mod verdict;
pub mod worst;
