ghost use Rattle.std.specs.Prelude.{IsTrue, ◌↔◌};
ghost use Rattle.pf_desk.specs.Plain.{IsPlain};

use pf_scenario::change::Change;

/// What a caller asks of the desk.
#[derive(Clone, Copy, Debug, PartialEq, Eq)]
pub enum Command {
    /// A change to the scenario. A strict one is refused where the run so far would then have any denial.
    Edit {
        /// The change.
        change: Change,
        /// Whether it is strict.
        strict: bool,
    },
    /// The next slot.
    Step,
}

impl Command {
    /// Whether it is an edit that is not strict.
    pub fn is_plain(&self) -> bool
        ensures { IsTrue result ↔ IsPlain self.now }
    {
        match self {
            Command::Edit { strict, .. } => !*strict,
            Command::Step => false,
        }
    }
}
