use counted_slot::Fits;
use pf_desk::snapshot::Snapshot;
use pf_scenario::settings::Settings;
use pf_shelf::again::Again;
use std::sync::Arc;

/// A snapshot that is shown to readers.
#[derive(Drop)]
pub struct Shown {
    pub snapshot: Arc<Snapshot>,
}

impl Fits for Shown {
    ghost use Rattle.std.specs.Arc.{arc_value};
    ghost use Rattle.pf_shared_desk.specs.Reading.{IsShown};

    type Tag = Settings;

    ghost fits = { λ settings shown. IsShown settings (arc_value shown.snapshot) };
}

impl Again for Shown {
    fn again(&self) -> Option<Self> {
        match Arc::try_clone(&self.snapshot) {
            Ok(snapshot) => Some(Shown { snapshot }),
            Err(_) => None,
        }
    }
}
