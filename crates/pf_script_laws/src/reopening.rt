//! A desk that is opened again by its own script.

pub mod laws;
