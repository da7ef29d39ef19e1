//! How a picture is to look: how wide a slot is, how many slots stand side by side, and how the tasks are drawn. The one
//! contract of this folder: a width and a length of blocks are what pictures may have.

pub mod cell;
pub mod look;
pub mod style;
pub mod wrap;
