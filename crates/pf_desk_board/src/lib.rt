//! The board of a desk, for whoever shares one: what a desk's history means to a board, what a caller's command makes of
//! that history, and how the quanta of a slot are issued.
#![tactic(auto)]

pub mod calls;
pub mod done;
pub mod issue;
