use pf_weight::weight::Weight;

/// A task that is inside, as admission looks at it. Shifts are in slots.
#[derive(Clone, Copy, Debug, PartialEq, Eq)]
pub struct Member {
    /// Its weight.
    pub weight: Weight,
    /// The slot in which it joined.
    pub joined: u64,
    /// How many slots before its release a subtask may run.
    pub early: u64,
    /// How many quanta it received, which is the number of its last subtask that ran.
    pub done: u64,
    /// The shift of its next subtask.
    pub shift: u64,
    /// The shift of its last subtask that ran.
    pub last: u64,
}
