ghost use Rattle.std.specs.Prelude.{◌<◌};

use pf_scenario::change::Change;
use pf_scenario::event::Event;

/// Numbers that look drawn by chance, and are the same in each run: the upper halves of a linear congruential
/// generator's.
#[derive(Drop)]
pub(crate) struct Draws {
    seed: u64,
}

impl Draws {
    pub(crate) fn new(seed: u64) -> Self {
        Self { seed }
    }

    /// A number below n.
    pub(crate) fn below(&mut self, n: u32) -> u32
        requires { 0 < n }
        ensures { result < n }
    {
        self.seed = self
            .seed
            .wrapping_mul(6_364_136_223_846_793_005)
            .wrapping_add(1_442_695_040_888_963_407);
        ((self.seed >> 33) % u64::from(n)) as u32
    }
}

/// A change in slots around now, of few tasks and few numbers, so that many changes meet.
pub(crate) fn drawn_change(draws: &mut Draws, now: u64) -> Change {
    let event = drawn_event(draws, now);
    let number = 1 + u64::from(draws.below(40));
    match draws.below(8) {
        0..=5 => Change::Insert(event),
        6 => Change::Alter(number, event),
        _ => Change::Strike(number),
    }
}

/// An event in a slot around now.
fn drawn_event(draws: &mut Draws, now: u64) -> Event {
    let slot = now
        .saturating_add(u64::from(draws.below(12)))
        .saturating_sub(4);
    let task = 1 + u64::from(draws.below(12));
    match draws.below(10) {
        0..=6 => Event::Join {
            slot,
            task,
            cost: 1 + u64::from(draws.below(3)),
            period: 6 / (1 + u64::from(draws.below(4))),
            early: u64::from(draws.below(3)),
        },
        7 => Event::Leave { slot, task },
        8 => Event::Delay {
            slot,
            task,
            by: 1 + u64::from(draws.below(3)),
        },
        _ => Event::Limit {
            slot,
            count: 1 + u64::from(draws.below(4)),
        },
    }
}
