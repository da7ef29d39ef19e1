use crate::stamp::Stamp;
use pf_desk::entry::Entry;
use std::collections::LinkedList;

/// What a seat at the readers' table knows. No value of it is made.
pub struct Reads {
    /// A history that was shown.
    pub seen: LinkedList<Entry>,
    /// The versions that its entries found.
    pub reads: LinkedList<u64>,
    /// A number that was shown, once the seat was told one.
    pub known: LinkedList<Stamp>,
}
