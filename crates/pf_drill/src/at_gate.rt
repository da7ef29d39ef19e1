use crate::gate::Gate;
use crate::shift::Shift;
use std::thread::Promise;

/// The promise that what a worker tells is what this gate said.
pub(crate) struct AtGate<'a, G> {
    pub(crate) gate: &'a G,
}

impl<'a, G> Drop for AtGate<'a, G> {
    fn drop(self) {
        let AtGate { gate: _ } = self;
    }
}

impl<'a, G: Gate> Promise<Shift> for AtGate<'a, G> {
    ghost use Rattle.pf_drill.specs.Gates.{IsToldOf};

    ghost kept_by = { λ p shift. IsToldOf (G.lets_in p.gate.now) (G.shuts_out p.gate.now) shift };
}
