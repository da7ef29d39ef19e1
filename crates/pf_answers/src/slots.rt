ghost use Rattle.std.specs.Prelude.{◌≡◌, ◌≤◌, ◌<◌, None, IfSome};
ghost use Rattle.pf_place.specs.Lent.{lent_row};
ghost use Rattle.pf_answers.specs.SlotsChanged.{first_changed, last_changed, same_at, same_places, same_sitter, slots_between, slots_by};

use pf_order::pick::Pick;
use pf_place::row_view::RowView;
use pf_place::rows::Rows;

/// What a change did to the rows of the slots stepped.
#[derive(Clone, Copy)]
pub enum SlotsChanged {
    /// It touches no slot stepped.
    Untouched,
    /// It touches some, and each row is as before.
    Same,
    /// The rows of these two slots are not as before, and each other one that is not lies between.
    Between {
        /// The first slot.
        first: u64,
        /// The last one.
        last: u64,
    },
}

/// Whether the same sits on a processor, or nobody does.
fn is_same_sitter(before: Option<Pick>, after: Option<Pick>) -> bool
    ensures { result ≡ same_sitter before after }
{
    match (before, after) {
        (None, None) => true,
        (Some(before), Some(after)) => before.task == after.task && before.sub == after.sub,
        _ => false,
    }
}

/// Whether two rows seat the same on each of so many processors.
#[tactic(auto, using(crate::proofs::Differing::other_place))]
fn is_same_row(processors: u32, before: RowView<'_>, after: RowView<'_>) -> bool
    ensures { result ≡ same_places (lent_row before.entry) (lent_row after.entry) processors }
{
    for processor in 0..processors {
        if !is_same_sitter(before.get(processor), after.get(processor)) {
            return false;
        }
    }
    true
}

/// Whether a slot's row is as before, on so many processors.
fn is_same_at(processors: u32, before: &Rows, after: &Rows, slot: u64) -> bool
    ensures { result ≡ same_at processors before.now after.now slot }
{
    match (before.get(slot), after.get(slot)) {
        (Some(before), Some(after)) => is_same_row(processors, before, after),
        _ => true,
    }
}

/// The first slot from this one on, and below `now`, whose row is not as before.
#[tactic(auto, using(crate::proofs::Differing::first_stays, crate::proofs::Differing::none_more))]
fn first_changed(processors: u32, before: &Rows, after: &Rows, from: u64, now: u64) -> Option<u64>
    requires same { first_changed processors before.now after.now from ≡ None }
    requires within { from ≤ now }
    ensures { result ≡ first_changed processors before.now after.now now }
{
    for slot in from..now {
        if !is_same_at(processors, before, after, slot) {
            return Some(slot);
        }
    }
    None
}

/// The last slot below `now` whose row is not as before.
#[tactic(auto, using(crate::proofs::Differing::last_step))]
fn last_changed(processors: u32, before: &Rows, after: &Rows, now: u64) -> Option<u64>
    ensures { result ≡ last_changed processors before.now after.now now }
{
    let mut left = now;
    while left > 0 {
        let slot = left - 1;
        if !is_same_at(processors, before, after, slot) {
            return Some(slot);
        }
        left = slot;
    }
    None
}

/// The slots below `now` whose rows are not as before, where those below `from` are.
fn slots_between(processors: u32, before: &Rows, after: &Rows, from: u64, now: u64) -> SlotsChanged
    requires same { first_changed processors before.now after.now from ≡ None }
    requires within { from ≤ now }
    ensures { result ≡ slots_between processors before.now after.now now }
{
    match first_changed(processors, before, after, from, now) {
        Some(first) => SlotsChanged::Between {
            first,
            last: last_changed(processors, before, after, now).unwrap_or(first),
        },
        None => SlotsChanged::Same,
    }
}

/// What a change did to the rows of `now` slots. It touches no slot below `touched`, where it touches one at all, and the rows of
/// those are as before.
pub fn slots_changed(
    processors: u32,
    touched: Option<u64>,
    before: &Rows,
    after: &Rows,
    now: u64,
) -> SlotsChanged
    requires { IfSome touched (λ from. from < now → first_changed processors before.now after.now from ≡ None) }
    ensures { result ≡ slots_by processors touched before.now after.now now }
{
    match touched {
        Some(from) if from < now => slots_between(processors, before, after, from, now),
        _ => SlotsChanged::Untouched,
    }
}
