ghost use Rattle.std.specs.Prelude.{◌≡◌, ◌≤◌};
ghost use Rattle.pf_verdict.specs.Verdict.{unreached_of, verdict_of};

use pf_scenario::scenario::Scenario;

/// Whether a script fits.
#[derive(Clone, Copy)]
pub enum Verdict {
    /// Nothing was refused, denied or missed, no slot asked for more than its processors, and each event was reached.
    Fits,
    /// Nothing was refused, denied or missed.
    FitsSoFar,
    /// A command was refused, an event denied, or a window missed.
    DoesNotFit,
}

/// What a verdict rests on: how many commands were refused, events denied and windows missed; how many slots asked for more
/// than their processors in use; and how many events were not reached.
#[derive(Clone, Copy)]
pub struct Grounds {
    /// The refused commands.
    pub refused: u64,
    /// The denied events.
    pub denied: u64,
    /// The missed windows.
    pub missed: u128,
    /// The slots whose load was above their room.
    pub above: u64,
    /// The events of slots that were not stepped.
    pub unreached: u64,
}

/// The verdict on these grounds.
pub fn verdict_of(grounds: Grounds) -> Verdict
    ensures { result ≡ verdict_of grounds }
{
    if grounds.refused > 0 || grounds.denied > 0 || grounds.missed > 0 {
        Verdict::DoesNotFit
    } else if grounds.above > 0 || grounds.unreached > 0 {
        Verdict::FitsSoFar
    } else {
        Verdict::Fits
    }
}

/// How many of the events held are not reached in the slots below now.
pub fn unreached(scenario: &Scenario, now: u64) -> u64
    ensures { result ≡ unreached_of scenario.now now }
{
    scenario
        .events()
        .filter(|numbered| numbered.event.slot() >= now)
        .count() as u64
}
