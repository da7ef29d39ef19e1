use crate::reply::Fault;
use pf_place::row_view::RowView;

/// A reply that is lent.
#[derive(Clone, Copy, Debug)]
pub enum ReplyView<'a> {
    /// The change was made.
    Edited {
        /// The number of the event concerned.
        id: u64,
    },
    /// The slot was taken.
    Stepped {
        /// The slot.
        slot: u64,
        /// Who runs where in it.
        row: RowView<'a>,
    },
    /// Nothing changed but the history.
    Refused(Fault),
}
