ghost use Rattle.std.specs.Prelude.{◌≡◌, ◌+◌, ◌-◌, ◌≤◌, All, length, IfSome};
ghost use Rattle.pf_scenario.specs.Edit.{IsEvent};
ghost use Rattle.pf_scenario.specs.declared.settings.TheConstants.{WIDE_HORIZON};
ghost use Rattle.pf_notes.specs.Point.{first_slot};
ghost use Rattle.pf_notes.specs.Walk.{quantum_in, last_in, bound_with, bound_after, ran_of, release_with, sub_of, lets_go_by, AreRunRows};

use crate::delays::{delays_through, seated_pick};
use crate::quantum::Quantum;
use pf_place::rows::Rows;
use pf_scenario::event::Numbered;
use pf_scenario::settings::Settings;
use pf_tally::admitted::Admitted;
use pf_window::{bit, deadline, group, release};

/// The quantum of the task in slot t, if it has one there.
fn quantum_in(processors: u32, rows: &Rows, task: u64, t: u64) -> Option<Quantum>
    requires { AreRunRows processors rows.now }
    ensures value { result ≡ quantum_in rows.now task t }
    ensures sub { IfSome result (λ q. (1 ≤ q.sub) × (q.sub ≤ WIDE_HORIZON)) }
{
    let row = rows.get(t)?;
    let pick = seated_pick(processors, row, task)?;
    Some(Quantum {
        slot: t,
        sub: pick.sub,
    })
}

/// The last quantum of the task in the slots below t.
pub(crate) fn last_in(processors: u32, rows: &Rows, task: u64, t: u64) -> Option<Quantum>
    requires { AreRunRows processors rows.now }
    ensures value { result ≡ last_in rows.now task t }
    ensures sub { IfSome result (λ q. (1 ≤ q.sub) × (q.sub ≤ WIDE_HORIZON)) }
{
    let mut at = t;
    while at > 0 {
        at -= 1;
        let quantum = quantum_in(processors, rows, task, at);
        if quantum.is_some() {
            return quantum;
        }
    }
    None
}

/// The first slot in which a task whose last quantum is this one may leave, where these events are in force.
fn bound_after(
    settings: Settings,
    joined: &Admitted,
    standing: &[Numbered],
    quantum: Quantum,
) -> u64
    requires limits { All (λ x. IsEvent settings x.event) standing.now }
    requires few { length standing.now ≤ 65535 }
    requires slot { joined.now.slot ≤ WIDE_HORIZON }
    requires first { 1 ≤ quantum.sub }
    requires last { quantum.sub ≤ WIDE_HORIZON }
    ensures { result ≡ bound_after joined.now standing.now quantum }
{
    let weight = joined.weight;
    let due = if weight.is_heavy() {
        group(weight, quantum.sub)
    } else {
        deadline(weight, quantum.sub)
    };
    let shift = joined.slot + delays_through(settings, joined.task, quantum.slot, standing);
    due + shift + bit(weight, quantum.sub)
}

/// The first slot in which the task may leave by its last quantum up to slot t, where this is the one by those below t.
fn bound_behind(
    settings: Settings,
    rows: &Rows,
    joined: &Admitted,
    standing: &[Numbered],
    bound: u64,
    t: u64,
) -> u64
    requires limits { All (λ x. IsEvent settings x.event) standing.now }
    requires few { length standing.now ≤ 65535 }
    requires slot { joined.now.slot ≤ WIDE_HORIZON }
    requires rows { AreRunRows settings.processors rows.now }
    requires bound { bound ≡ bound_with joined.now standing.now (last_in rows.now joined.now.task t) }
    ensures { result ≡ bound_with joined.now standing.now (last_in rows.now joined.now.task (t + 1)) }
{
    match quantum_in(settings.processors(), rows, joined.task, t) {
        Some(quantum) => bound_after(settings, joined, standing, quantum),
        None => bound,
    }
}

/// The next slot above `from`, at most `to`, in which the task is let go, if there is one. `bound` is the first slot in which its
/// last quantum below `from` lets it go.
pub(crate) fn leaves_in(
    settings: Settings,
    rows: &Rows,
    joined: &Admitted,
    standing: &[Numbered],
    bound: u64,
    from: u64,
    to: u64,
) -> Option<u64>
    requires limits { All (λ x. IsEvent settings x.event) standing.now }
    requires few { length standing.now ≤ 65535 }
    requires slot { joined.now.slot ≤ WIDE_HORIZON }
    requires rows { AreRunRows settings.processors rows.now }
    requires order { from ≤ to }
    requires within { to ≤ length rows.now }
    requires bound { bound ≡ bound_with joined.now standing.now (last_in rows.now joined.now.task from) }
    ensures { result ≡ first_slot (lets_go_by rows.now joined.now standing.now) (from + 1) (to - from) }
{
    let mut bound = bound;
    for t in from..to {
        bound = bound_behind(settings, rows, joined, standing, bound, t);
        if bound <= t + 1 {
            return Some(t + 1);
        }
    }
    None
}

/// The shifted release of the task's next subtask, where its last quantum is this one, after these events in force, of slots up
/// to t.
pub(crate) fn release_with(
    settings: Settings,
    joined: &Admitted,
    standing: &[Numbered],
    t: u64,
    last: Option<Quantum>,
) -> u64
    requires limits { All (λ x. IsEvent settings x.event) standing.now }
    requires few { length standing.now ≤ 65535 }
    requires slot { joined.now.slot ≤ WIDE_HORIZON }
    requires last { IfSome last (λ q. q.sub ≤ WIDE_HORIZON) }
    ensures { result ≡ release_with joined.now standing.now t last }
{
    let next = sub_of(last) as u32 + 1;
    let shift = joined.slot + delays_through(settings, joined.task, t, standing);
    release(joined.weight, next) + shift
}

/// The number of the subtask that had the quantum, 0 where there is none.
pub(crate) fn sub_of(last: Option<Quantum>) -> u64
    ensures { result ≡ sub_of last }
{
    match last {
        Some(quantum) => u64::from(quantum.sub),
        None => 0,
    }
}

/// The slot of the quantum, 0 where there is none.
pub(crate) fn ran_of(last: Option<Quantum>) -> u64
    ensures { result ≡ ran_of last }
{
    match last {
        Some(quantum) => quantum.slot,
        None => 0,
    }
}

/// The first slot in which a task whose last quantum is this one may leave; 0 where it had none.
pub(crate) fn bound_with(
    settings: Settings,
    joined: &Admitted,
    standing: &[Numbered],
    last: Option<Quantum>,
) -> u64
    requires limits { All (λ x. IsEvent settings x.event) standing.now }
    requires few { length standing.now ≤ 65535 }
    requires slot { joined.now.slot ≤ WIDE_HORIZON }
    requires sub { IfSome last (λ q. (1 ≤ q.sub) × (q.sub ≤ WIDE_HORIZON)) }
    ensures { result ≡ bound_with joined.now standing.now last }
{
    match last {
        Some(quantum) => bound_after(settings, joined, standing, quantum),
        None => 0,
    }
}
