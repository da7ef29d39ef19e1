//! The script of a desk as a plan, read again. The one contract of this folder: it tells the desk and its titles.

pub mod laws;
