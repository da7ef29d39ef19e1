use pf_board::quantum::Quantum;
use std::alloc::Global;

/// What a worker tells at the end of a drill.
#[derive(Drop)]
pub struct Shift {
    /// The quanta that it took and was let in with, by slot.
    pub taken: Vec<Quantum>,
    /// Whether the gate was shut to it.
    pub is_shut: bool,
}

impl Shift {
    ghost use Rattle.std.specs.Prelude.{◌≡◌, [], false};

    /// That of a worker that took nothing.
    pub fn new(alloc: Global) -> Self
        ensures taken { result.taken.items ≡ [] }
        ensures shut { result.is_shut ≡ false }
    {
        Shift {
            taken: Vec::new(alloc),
            is_shut: false,
        }
    }
}
