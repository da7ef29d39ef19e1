//! Weights of periodic tasks: a cost and a period over a common base, and the greatest task number. Its one contract: a weight is made exactly
//! where its cost is 1 to its period and its period divides the base, and its parts are what it was made of.
#![tactic(auto)]

pub mod base;
pub mod fault;
pub mod task;
pub mod weight;
