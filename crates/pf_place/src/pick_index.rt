ghost use Rattle.std.specs.Prelude.{◌≡◌};
ghost use Rattle.pf_place.specs.Index.{AreStarts, number_of};

use pf_order::pick::Pick;
use std::marker::Model;

/// How many buckets the tasks fall into, by their numbers: some times as many as a slot has picks, so that few share one.
pub(crate) const BUCKETS: usize = 512;

/// How many picks are filed by bucket: as many as a byte can number. The others are looked for after them.
const MOST_FILED: usize = 255;

/// The picks of a slot, to be found by task: each search begins at the first pick whose task falls into the same bucket.
/// It takes no memory.
#[derive(Drop)]
pub(crate) struct PickIndex<'a> {
    picks: &'a [Pick],
    starts: &'a [u8; BUCKETS],
}

impl<'a> Model for PickIndex<'a> {
    ghost use Rattle.std.specs.Prelude.{List};
    ghost use Rattle.pf_order.specs.declared.pick.Pick.{Pick};
    ghost use Rattle.pf_place.specs.Index.{AreStarts};

    ghost Value = { List Pick };

    ghost view = { λ index. index.picks.now };

    ghost invariant = { λ index. AreStarts index.starts.now index.picks.now };
}

impl<'a> PickIndex<'a> {
    /// The index of these picks, whose starts these are.
    pub(crate) fn of(picks: &'a [Pick], starts: &'a [u8; BUCKETS]) -> Self
        requires { AreStarts starts.now picks.now }
        ensures { result ≡ picks.now }
    {
        PickIndex { picks, starts }
    }

    /// The picks, in their order.
    pub(crate) fn picks(&self) -> &'a [Pick]
        ensures { result.now ≡ self.now }
    {
        self.picks
    }

    /// Where the first pick of the task stands, where it has one.
    pub(crate) fn number(&self, task: u32) -> Option<usize>
        ensures { result ≡ number_of self.now task }
    {
        let start = self.starts[task as usize % BUCKETS] as usize;
        match first_of(&self.picks[start..], task) {
            Some(behind) => Some(start + behind),
            None => None,
        }
    }
}

/// Where the first pick of the task stands, by looking through the picks.
fn first_of(picks: &[Pick], task: u32) -> Option<usize>
    ensures { result ≡ number_of picks.now task }
{
    picks.iter().position(|pick| pick.task == task)
}

/// Notes where the search for a task begins, by its bucket: at the first of the picks filed there, else after all that
/// are filed.
pub(crate) fn note_starts(starts: &mut [u8; BUCKETS], picks: &[Pick])
    ensures { AreStarts starts.new picks.now }
{
    let filed = picks.len().min(MOST_FILED);
    starts.fill(filed as u8);
    for k in (0..filed).rev() {
        starts[picks[k].task as usize % BUCKETS] = k as u8;
    }
}
