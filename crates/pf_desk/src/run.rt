ghost use Rattle.std.specs.Prelude.{◌≡◌, ◌≤◌};
ghost use Rattle.pf_desk.specs.Runs.{brief_of_run};

use crate::brief::Brief;

/// Briefs that follow one another, each the next of the one before.
#[derive(Clone, Copy, Debug)]
pub(crate) struct Run {
    /// How many briefs stand before it.
    pub(crate) start: usize,
    /// Its first brief.
    pub(crate) first: Brief,
}

const _: () = prove!(size_of::<Run>() == 24);

impl Run {
    /// The k-th brief of all, which must not stand before the run.
    pub(crate) fn brief(self, k: usize) -> Brief
        requires { self.start ≤ k }
        ensures { result ≡ brief_of_run self k }
    {
        self.first.behind((k - self.start) as u64)
    }
}
