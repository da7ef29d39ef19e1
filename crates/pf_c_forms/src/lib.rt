//! The forms that a desk's values have in C, for the libraries that C links: changes and events as C gives them, replies and
//! picks as it gets them, the statuses, and a box that was taken apart. The one contract of this crate: each value in C's form
//! tells the value itself, and what C gives asks for what the desk understands by it.
#![tactic(auto)]

pub mod raw_box;
pub mod raw_change;
pub mod raw_event;
pub mod raw_pick;
pub mod raw_reply;
pub mod row_room;
pub mod status;
