//! What holds of what is written: a desk's script, the script of a conversion and a page can be read again, and say what they were
//! made of; and notes say the truth. Each law is a function that no program calls.
#![tactic(auto)]

pub mod agreement;
pub mod conversions;
pub mod inert_pages;
pub mod plan_fits;
pub mod reopening;
pub mod repairs;
pub mod titles;
