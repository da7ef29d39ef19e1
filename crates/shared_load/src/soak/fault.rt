use pf_board::quantum::Quantum;
use std::error::Error;
use std::fmt;

/// What is wrong with a round.
#[derive(Clone, Copy, Debug, PartialEq, Eq)]
pub(crate) enum Fault {
    /// Memory was refused.
    NoMemory,
    /// A thread waited too long for the others.
    Stuck,
    /// A thread found fewer entries, or an earlier slot, than it had before.
    Fell,
    /// The history has another number of entries than commands were answered.
    Entries(u64),
    /// A fresh desk answers the command of this entry otherwise; the entries are numbered from 0.
    Reply(u64),
    /// A fresh desk has another row in this slot, or other slots.
    Row(u64),
    /// The quantum was taken or left, but no step issued it, or it was taken or left before.
    Twice(Quantum),
    /// A step issued the quantum, which was neither taken nor left.
    Lost(Quantum),
}

impl fmt::Display for Fault {
    fn fmt<W: fmt::Write>(&self, f: &mut fmt::Formatter<W>) -> fmt::Result {
        match self {
            Fault::NoMemory => f.write_str("memory was refused"),
            Fault::Stuck => f.write_str("a thread waited too long"),
            Fault::Fell => f.write_str("a thread found less than before"),
            Fault::Entries(count) => write!(f, "the history has {count} entries"),
            Fault::Reply(entry) => write!(f, "entry {entry} is answered otherwise on a fresh desk"),
            Fault::Row(slot) => write!(f, "slot {slot} has another row on a fresh desk"),
            Fault::Twice(
                Quantum {
                    slot,
                    processor,
                    ..
                },
            ) => write!(
                f,
                "the quantum of slot {slot} on processor {processor} is twice, or was not issued"
            ),
            Fault::Lost(
                Quantum {
                    slot,
                    processor,
                    ..
                },
            ) => write!(
                f,
                "the quantum of slot {slot} on processor {processor} is lost"
            ),
        }
    }
}

impl Error for Fault {}
