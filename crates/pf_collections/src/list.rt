//! Lists of which copies share the items. Their one contract: a shared list is the list of its items, and a copy costs the
//! same however long it is.

mod group;
pub mod shared_list;
pub mod shared_vec;
