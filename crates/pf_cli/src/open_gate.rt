use pf_board::quantum::Quantum;
use pf_drill::gate::Gate;
use pf_drill::worker::Worker;

/// A gate that is always open.
#[derive(Drop)]
pub(crate) struct OpenGate;

impl Gate for OpenGate {
    ghost use Rattle.std.specs.Prelude.{⊤};

    ghost lets_in = { λ _ _ _. ⊤ };

    ghost shuts_out = { λ _ _ _. ⊥ };

    fn arrive(&self, _worker: &Worker, _quantum: &Quantum) -> bool {
        true
    }
}
