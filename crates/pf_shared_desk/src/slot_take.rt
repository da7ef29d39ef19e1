use pf_board::take::Take;

/// What a caller got of a processor in a slot.
#[derive(Clone, Copy, Debug, PartialEq, Eq)]
pub enum SlotTake {
    /// The slot is not stepped yet: nothing was done.
    NotYet,
    /// A later slot is stepped already: nothing was done.
    Past,
    /// It was the last slot stepped: what a take found on the processor.
    Found(Take),
}
