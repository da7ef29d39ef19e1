use pf_heap::arena::HeapId;

/// The keys that wait for one slot.
#[derive(Clone, Copy)]
pub(crate) struct WaitingList {
    pub(crate) slot: u64,
    /// The heap that holds them.
    pub(crate) heap: HeapId,
    /// How many they are.
    pub(crate) count: usize,
}
