//! What threads share without waiting for one another: a room whose value one caller at a time takes out, and a shelf of
//! which one value is shown. A call that would have to wait answers that there is nothing. So both may stand where nothing
//! may wait, as in a static library. The one contract of this crate: each value that comes out fits the tag of its room or
//! shelf, as each that goes in has to.
#![tactic(auto)]

pub mod again;
mod raw_box;
mod reading;
pub mod room;
pub mod shelf;
