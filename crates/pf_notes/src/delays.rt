ghost use Rattle.std.specs.Prelude.{◌≡◌, ◌*◌, ◌≤◌, All, length};
ghost use Rattle.pf_scenario.specs.Edit.{IsEvent};
ghost use Rattle.pf_scenario.specs.declared.limits.TheConstants.{LONGEST_DELAY};
ghost use Rattle.pf_place.specs.Lent.{lent_row};
ghost use Rattle.pf_notes.specs.Walk.{delay_through, delays_through, seated_pick};

use pf_order::pick::Pick;
use pf_place::row_view::RowView;
use pf_scenario::event::{Event, Numbered};
use pf_scenario::settings::Settings;

/// By how many slots the event holds the task back, where it is of a slot up to `through`.
#[tactic(auto, using(pf_run::proofs::Limits::delay_by))]
fn delay_through(settings: Settings, task: u64, through: u64, event: &Event) -> u64
    requires { IsEvent settings event.now }
    ensures value { result ≡ delay_through task through event.now }
    ensures bound { result ≤ LONGEST_DELAY }
{
    match *event {
        Event::Delay {
            slot,
            task: number,
            by,
        } if number == task && slot <= through => by,
        _ => 0,
    }
}

/// By how many slots these events together hold the task back, those of slots up to `through`.
pub(crate) fn delays_through(
    settings: Settings,
    task: u64,
    through: u64,
    standing: &[Numbered],
) -> u64
    requires short { All (λ x. IsEvent settings x.event) standing.now }
    requires few { length standing.now ≤ 65535 }
    ensures value { result ≡ delays_through task through standing.now }
    ensures bound { result ≤ 65535 * LONGEST_DELAY }
{
    let mut delays = 0;
    for numbered in standing {
        delays += delay_through(settings, task, through, &numbered.event);
    }
    delays
}

/// The pick of the task in the row.
pub(crate) fn seated_pick(processors: u32, row: RowView<'_>, task: u64) -> Option<Pick>
    requires { length (lent_row row) ≡ processors }
    ensures { result ≡ seated_pick (lent_row row.entry) task }
{
    for processor in 0..processors {
        if let Some(pick) = row.get(processor) {
            if u64::from(pick.task) == task {
                return Some(pick);
            }
        }
    }
    None
}
