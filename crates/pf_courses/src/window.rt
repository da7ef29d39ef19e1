use crate::quantum::Quantum;

/// A subtask of a course: its window, with its shift, and where it ran. Times are slots.
#[derive(Clone, Copy)]
pub struct Window {
    /// The number of the subtask, from 1.
    pub sub: u64,
    /// The first slot of its window.
    pub release: u64,
    /// The first slot after its window.
    pub deadline: u64,
    /// 1 where its window overlaps the next one, else 0.
    pub bit: u64,
    /// Its group deadline; 0 of a light task.
    pub group: u64,
    /// Whether its window was missed.
    pub late: bool,
    /// Where it ran, if it did.
    pub ran: Option<Quantum>,
}

impl Window {
    ghost use Rattle.std.specs.Prelude.{◌≡◌};
    ghost use Rattle.pf_courses.specs.Windows.{ran_below, processor_in};

    /// Whether it ran in a slot below t.
    pub fn ran_below(&self, t: u64) -> bool
        ensures { result ≡ ran_below t self.now }
    {
        match self.ran {
            Some(quantum) => quantum.slot < t,
            None => false,
        }
    }

    /// The processor on which it ran in slot t, if it did.
    pub fn processor_in(&self, t: u64) -> Option<u32>
        ensures { result ≡ processor_in t self.now }
    {
        match self.ran {
            Some(quantum) if quantum.slot == t => Some(quantum.processor),
            _ => None,
        }
    }
}
