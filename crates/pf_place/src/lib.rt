//! Which processor runs which pick of a slot. Its one contract: a row is placed by the definition of occupancy, and
//! rows are a list.
#![tactic(auto)]

mod block;
mod closed_block;
mod packed_rows;
mod pick_index;
mod place;
mod places;
pub mod row;
pub mod row_view;
pub mod rows;
mod seating;
mod small_place;
