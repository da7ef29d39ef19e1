//! Heaps of keys: many binomial heaps in one arena of nodes. Its one contract: the heaps are lists of keys in the
//! order, and a number of spare places.
#![tactic(auto)]

mod adding;
pub mod arena;
mod growing;
mod links;
mod node;
mod popping;
mod splitting;
mod table;
mod taking;
