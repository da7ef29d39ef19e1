//! `pfair fit`: a script is carried out, and what is found of it is told as text or as JSON. The one contract of this crate: the
//! answer is that of its definition, of what a desk shows that was asked the script's commands and of what its records came to.
#![tactic(auto)]

pub mod fit;
mod items;
mod joins;
mod texts;
