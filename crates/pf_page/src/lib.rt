//! A run as a page of HTML, to look around in. The one contract of this crate: a page is its constant head, the data of a run
//! as it was given, and its constant foot. What its script draws of the data is tried by tools/try-page.
#![tactic(auto)]

pub mod foot;
pub mod head;
pub mod page;
