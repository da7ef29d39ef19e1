//! How far each task is from its fair share, and which windows are missed. Its one contract: `lags` and `misses` are
//! those of the scenario's run. `fits` and `levels` are of its loads: the first slot with a load above the processors in
//! use, and by how much all were above them together; and load and room from slot to slot in which one of them changes.
//!
//! Both come from one walk over a run, which keeps by task how far it has come, a tally of both from the same one, and
//! the figures of each task rest on it too. Open to other tallies of a run is the ledger, with each task's own events and
//! the slots in which it ran, and so are its delays and its shifts.
#![tactic(auto)]

pub mod admitted;
mod asking;
pub mod clock;
pub mod diary;
pub mod extremes;
pub mod figures;
pub mod fit;
pub mod fits;
pub mod held;
mod inside;
mod journal;
pub mod lag;
pub mod lags;
pub mod late;
pub mod laws;
pub mod ledger;
pub mod level;
pub mod levels;
pub mod miss;
pub mod misses;
mod moves;
pub mod processors;
mod progress;
mod quanta;
mod range;
mod responses;
pub mod standing;
pub mod tally;
mod tardiness;
pub mod task_figures;
mod walk;
mod walked_run;
