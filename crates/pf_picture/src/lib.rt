//! A schedule to look at: its picture as SVG, in blocks, with a row for each processor, and of each task its windows, its
//! quanta, its lag and what befell it. The one contract of this crate: from a snapshot, the names of its tasks and the length
//! of a slot `picture_pieces` gives the bytes of the picture.
#![tactic(auto)]

pub mod asked;
pub mod blocks;
mod boxes;
mod brackets;
mod denials;
pub mod drawing;
pub mod drawings;
mod element;
mod frame;
mod grid;
mod groups;
mod gutter;
mod in_rows;
mod lag_line;
pub mod lane;
pub mod laws;
mod legend;
mod marks;
pub mod picture;
mod processors;
pub mod rows_left;
pub mod scale;
mod shapes;
mod stairs;
mod strips;
pub mod summary;
mod task;
pub mod task_drawings;
pub mod turn;
