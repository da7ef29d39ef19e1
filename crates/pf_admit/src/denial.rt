ghost use Rattle.std.specs.Prelude.{◌≡◌};
ghost use Rattle.pf_admit.specs.Refusals.{denial_code, denial_name};

use std::error::Error;
use std::fmt;

/// Why an event has no effect.
#[derive(Clone, Copy, Debug, PartialEq, Eq)]
pub enum Denial {
    /// A join whose units and the load are above the cap.
    OverCapacity,
    /// A leave or a delay of a task that is not inside.
    NotInside,
    /// A leave before the task's last subtask lets it go.
    TooEarly,
    /// A delay after the release of the next subtask.
    Released,
}

impl Denial {
    /// Its number in the table of refusals, 20 to 23.
    pub fn code(self) -> u64
        ensures { result ≡ denial_code self }
    {
        match self {
            Denial::OverCapacity => 20,
            Denial::NotInside => 21,
            Denial::TooEarly => 22,
            Denial::Released => 23,
        }
    }

    /// Its name in the table of refusals.
    pub fn name(self) -> &'static str
        ensures { result.now ≡ denial_name self }
    {
        match self {
            Denial::OverCapacity => "OverCapacity",
            Denial::NotInside => "NotInside",
            Denial::TooEarly => "TooEarly",
            Denial::Released => "Released",
        }
    }
}

impl fmt::Display for Denial {
    fn fmt<W: fmt::Write>(&self, f: &mut fmt::Formatter<W>) -> fmt::Result {
        f.write_str(match self {
            Denial::OverCapacity => "the load would be above the cap",
            Denial::NotInside => "the task is not inside",
            Denial::TooEarly => "the task's last subtask does not let it go yet",
            Denial::Released => "the task's next subtask is released already",
        })
    }
}

impl Error for Denial {}
