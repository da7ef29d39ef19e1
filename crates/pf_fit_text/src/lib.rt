//! What `pfair fit` writes: the verdict on a script with what it rests on, as text and as JSON. The contracts of this crate:
//! each call gives the bytes of its definition, of the findings of a snapshot.
#![tactic(auto)]

pub mod arrays;
pub mod carried;
pub mod cells;
pub mod element;
pub mod elements;
pub mod json;
pub mod keys;
pub mod laws;
pub mod lines;
pub mod rows;
pub mod tasks_json;
pub mod text;
pub mod worst_line;
