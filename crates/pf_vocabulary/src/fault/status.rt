/// What the program exits with.
#[derive(Clone, Copy, Debug, PartialEq, Eq)]
pub enum Status {
    /// What was asked for was done.
    Done = 0,
    /// The script has a bad record or is too long, or a check found a fault.
    BadScript = 1,
    /// The words are refused or mistaken, or ask for slots that can't be shown.
    BadWords = 2,
    /// A stream failed, or a file can't be opened or read.
    StreamFailed = 3,
    /// Memory was refused, or a drill has no place for a reader.
    NoMemory = 4,
    /// A gate of a drill stayed shut.
    GateShut = 5,
    /// A run was done, and fails on what it was to fail on.
    FailedOn = 6,
}

impl Status {
    ghost use Rattle.std.specs.Prelude.{◌≡◌};
    ghost use Rattle.pf_vocabulary.specs.Fault.Faults.{number_of};

    /// Its number, 0 to 6.
    pub fn number(self) -> u8
        ensures { result ≡ number_of self }
    {
        self as u8
    }
}
