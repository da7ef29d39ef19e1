//! What holds of every run of a scenario, each law a function without a body, which no program calls. From `reach` and `ideal` follow
//! `static_sets` and `promise`, on which contracts rest: where the processors in use carry the load, no window is missed.
#![tactic(auto)]

pub mod examples;
pub mod ideal;
pub mod joins;
pub mod necessity;
pub mod promise;
pub mod reach;
pub mod repetition;
pub mod static_sets;
