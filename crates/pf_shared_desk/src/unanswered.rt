/// Why a command is no entry.
#[derive(Clone, Copy, Debug, PartialEq, Eq)]
pub enum Unanswered {
    /// Another caller is at the desk: nothing was done, and the caller may try again.
    Busy,
    /// A quantum lies untaken, so no step is taken: `processor` is the lowest on which one does.
    Pending { processor: u32 },
    /// Memory was refused.
    NoMemory,
}
