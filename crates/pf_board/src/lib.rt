//! The board: passes, one history, and quanta that are taken once, without a lock. What a pass has seen only grows and
//! is a beginning of one legal history; its own entries in it are exactly those that it noted; each quantum that is
//! issued is taken at most once, and whatever was not taken comes back at the close.
//!
//! It is generic over the entries of the history and over what they mean (`Issues`).
#![tactic(auto)]

pub mod board;
pub mod charter;
mod cuts;
pub mod hand;
pub mod handed;
pub mod issues;
pub mod keeper;
pub mod laws;
pub mod pass;
mod plays;
pub mod quantum;
mod rule;
pub mod take;
pub mod turn;
pub mod view;
pub mod word;
