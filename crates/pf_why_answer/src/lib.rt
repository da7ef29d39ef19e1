//! Why a slot of a script's run went as it did. The one contract of this crate: what is answered is the text of the slot at the end
//! of the script, or why there is none.
#![tactic(auto)]

pub mod why;
