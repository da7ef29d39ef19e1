ghost use Rattle.std.specs.Prelude.{◌≡◌, length, IfSome};
ghost use Rattle.std.specs.List.{position_from};
ghost use Rattle.std.specs.Option.{option_map};
ghost use Rattle.pf_place.specs.Lent.{lent_row};
ghost use Rattle.pf_why.specs.Seat.{choice_of, seat_of, sits};

use pf_place::row_view::RowView;

/// Why a subtask that runs sits on its processor.
#[derive(Clone, Copy)]
pub enum Choice {
    /// Its task ran on it in the slot before.
    Kept,
    /// It was the lowest one free.
    LowestFree,
    /// It was the lowest one free, since this one, on which its task ran in the slot before, is out of use.
    OutOfUse(u64),
}

/// Where a subtask runs, and why there.
#[derive(Clone, Copy)]
pub struct Seat {
    /// The processor.
    pub processor: u64,
    /// Why this one.
    pub choice: Choice,
}

/// The processor on which the task sits in a row of so many, if it does.
fn processor_of(row: RowView<'_>, processors: u32, task: u64) -> Option<u64>
    requires { processors ≡ length (lent_row row) }
    ensures { result ≡ position_from (sits task) 0 (lent_row row.entry) }
{
    for processor in 0..processors {
        if let Some(pick) = row.get(processor) {
            if u64::from(pick.task) == task {
                return Some(u64::from(processor));
            }
        }
    }
    None
}

/// Why a task sits on this processor, where it sat on `before` in the slot before, if it did, and so many are in use.
fn choice_on(count: u64, before: Option<u64>, processor: u64) -> Choice
    ensures { result ≡ choice_of count before processor }
{
    match before {
        Some(last) if last == processor => Choice::Kept,
        Some(last) if last >= count => Choice::OutOfUse(last),
        _ => Choice::LowestFree,
    }
}

/// Where the task runs in the slot of this row, and why there; none where it does not run. `before` is the row of the slot
/// before, if there is one; both have so many processors, of which the first `count` are in use.
pub fn seat_in(
    row: RowView<'_>,
    before: Option<RowView<'_>>,
    processors: u32,
    count: u64,
    task: u64,
) -> Option<Seat>
    requires row { processors ≡ length (lent_row row) }
    requires before { IfSome before (λ b. processors ≡ length (lent_row b)) }
    ensures { result ≡ seat_of (lent_row row.entry) (option_map lent_row before.entry) count task }
{
    let processor = processor_of(row, processors, task)?;
    let last = match before {
        Some(before) => processor_of(before, processors, task),
        None => None,
    };
    Some(Seat {
        processor,
        choice: choice_on(count, last, processor),
    })
}
