//! Facts of lists, options, orders and digits that speak of nothing scheduled: what the proofs of several crates need and
//! the library doesn't have.
#![tactic(auto)]
