use crate::check::fault_lines::FaultLines;
use crate::messages::telling::Message;
use std::alloc::{AllocError, Global};

/// What a check found.
#[derive(Drop)]
pub struct Found {
    /// The lines of the faults' messages.
    pub lines: FaultLines,
    /// How many records there were.
    pub records: u64,
}

impl Found {
    ghost use Rattle.std.specs.Prelude.{◌≡◌, ◌<◌, ◌-◌, ◌^◌, OnOk};
    ghost use Rattle.pf_script.specs.Check.Found.{IsFresh, Takes, is_clean};

    /// Nothing yet.
    pub(crate) fn new(alloc: Global) -> Self
        ensures { IsFresh result }
    {
        Found {
            lines: FaultLines::new(alloc),
            records: 0,
        }
    }

    /// A record is bad, and has this message.
    pub(crate) fn take(&mut self, message: &Message) -> Result<(), AllocError>
        requires lacking { self.old.lines.lacking < 2 ^ 64 - 1 }
        requires others { self.old.lines.others < 2 ^ 64 - 1 }
        requires records { self.old.records < 2 ^ 64 - 1 }
        ensures { OnOk result (Takes message.now self.old self.new) }
    {
        self.records += 1;
        self.lines.add(message)
    }

    /// Whether there is no fault.
    pub fn is_clean(&self) -> bool
        requires { self.now.lines.others < 2 ^ 64 - 1 }
        ensures { result ≡ is_clean self.now }
    {
        self.lines.count() == 0
    }
}
