ghost use Rattle.std.specs.Prelude.{◌≡◌, ◌+◌, ◌^◌, ◌≤◌, ◌<◌, List, None, All};
ghost use Rattle.pf_scenario.specs.Scenario.{Plan};
ghost use Rattle.pf_run.specs.Record.{Slot};
ghost use Rattle.pf_verdict.specs.Strain.{has_fewer_free, strain_of, strain_with, tighter};
ghost use Rattle.pf_verdict.specs.Stretches.{Cover, IsEven};

use crate::stretch::Stretch;
use pf_tally::level::Level;

/// How tight the slots of a run were. The free units of a slot are its room less its load, and may be below 0.
#[derive(Clone, Copy)]
pub struct Strain {
    /// The slot with the least free units, the first of several, and its load and room; none where there is no slot.
    pub tightest: Option<Level>,
    /// The first slot whose load was above its room; none where there was none.
    pub first: Option<u64>,
    /// How many slots there were with a load above their room.
    pub above: u64,
}

/// Whether b has fewer free units than a.
fn has_fewer_free(a: Level, b: Level) -> bool
    ensures { result ≡ has_fewer_free a b }
{
    u128::from(b.room) + u128::from(a.load) < u128::from(a.room) + u128::from(b.load)
}

/// The tighter one of both, the first where they are equal.
fn tighter(tightest: Option<Level>, level: Level) -> Option<Level>
    ensures { result ≡ tighter tightest level }
{
    match tightest {
        Some(found) => {
            if has_fewer_free(found, level) {
                Some(level)
            } else {
                Some(found)
            }
        }
        None => Some(level),
    }
}

impl Strain {
    /// That of a stretch's slots too.
    fn with(self, stretch: Stretch) -> Self
        requires order { stretch.from < stretch.to }
        requires few { self.above ≤ stretch.from }
        ensures { result ≡ strain_with self stretch }
    {
        let level = Level {
            slot: stretch.from,
            load: stretch.load,
            room: stretch.room,
        };
        let tightest = tighter(self.tightest, level);
        if stretch.load <= stretch.room {
            return Strain {
                tightest,
                first: self.first,
                above: self.above,
            };
        }
        Strain {
            tightest,
            first: self.first.or(Some(stretch.from)),
            above: self.above + (stretch.to - stretch.from),
        }
    }
}

/// How tight the slots of these stretches were, which are those of the first `now` slots.
pub fn strain_of(stretches: &[Stretch], now: u64) -> Strain
    requires { Cover 0 now stretches.now }
    ensures { (s : Plan) (r : List Slot) → All (IsEven s r) stretches.now → result ≡ strain_of s r now }
{
    let mut strain = Strain {
        tightest: None,
        first: None,
        above: 0,
    };
    for stretch in stretches {
        strain = strain.with(*stretch);
    }
    strain
}
