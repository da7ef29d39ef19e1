//! Who may join, leave or be delayed. Its one contract: each call is its rule of admission, on the numbers that it
//! is given.
#![tactic(auto)]

pub mod denial;
pub mod member;
pub mod rules;
