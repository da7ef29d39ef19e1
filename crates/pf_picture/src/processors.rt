ghost use Rattle.std.specs.Prelude.{◌≡◌, ◌==◌, ◌++◌, ◌+◌, ◌<◌, ◌≤◌, ◌^◌, length, slice_index_or, position, IfOk, OnOk};
ghost use Rattle.pf_place.specs.Lent.{lent_row};
ghost use Rattle.pf_courses.specs.Listing.{counts_of};
ghost use Rattle.pf_picture.specs.Processors.{cell_text, other_text, pick_text, processor_name, processor_text, run_text, turn_text, window_in};
ghost use Rattle.pf_picture.specs.Scale.{x_of};

use crate::boxes::{push_box, push_number_if_room};
use crate::drawing::Drawing;
use crate::element::push_element;
use crate::scale::{Scale, processor_top};
use crate::shapes::push_field;
use crate::task_drawings::TaskDrawings;
use crate::turn::Turn;
use pf_courses::quantum::Quantum;
use pf_courses::window::Window;
use pf_desk::rows::row_at;
use pf_desk::snapshot::Snapshot;
use pf_order::pick::Pick;
use pf_place::row_view::RowView;
use std::alloc::{AllocError, Global};

/// Appends the number of processor p.
#[tactic(auto, unfolding(crate::specs::Processors::processor_name))]
fn push_name(alloc: Global, text: &mut Vec<u8>, top: u64, p: u32) -> Result<(), AllocError>
    requires { top ≤ 2 ^ 20 }
    ensures { OnOk result (text.new.items ≡ text.old.items ++ processor_name top p) }
{
    let y = top + 12;
    let element = format!(in alloc; "<text x=\"8\" y=\"{y}\">p{p}</text>\n")?;
    push_element(text, &element)
}

/// The place of a task among these.
fn place_of(drawings: &[Drawing], task: u32) -> Option<usize>
    ensures { result ≡ position (λ drawing. drawing.listing.task == task) drawings.now }
{
    drawings
        .iter()
        .position(|drawing| drawing.listed().task() == task)
}

/// The window of the subtask that a listed task runs in slot t.
fn window_in(t: u64, drawing: &Drawing) -> Option<Window>
    ensures { result ≡ window_in t drawing.now }
{
    match drawing.listed().course() {
        Some(course) => course.running(t),
        None => None,
    }
}

/// Appends the box of a subtask of a task with this label in a processor's row, and the task's number.
#[tactic(auto, unfolding(crate::specs::Processors::turn_text))]
fn push_turn(
    alloc: Global,
    text: &mut Vec<u8>,
    scale: Scale,
    label: &str,
    task: u64,
    turn: Turn,
) -> Result<(), AllocError>
    requires from { scale.from ≤ turn.quantum.slot }
    requires to { turn.quantum.slot ≤ scale.to }
    requires processor { turn.quantum.processor < 64 }
    ensures { OnOk result (text.new.items ≡ text.old.items ++ turn_text scale label.now task turn) }
{
    let x = scale.x(turn.quantum.slot);
    let y = u128::from(processor_top(u64::from(turn.quantum.processor)));
    let cell = scale.cell();
    let to = scale.to();
    prove!(turn.quantum.slot <= to);
    push_box(alloc, text, label, turn, x + 1, y, cell - 2, 16)?;
    push_number_if_room(
        alloc,
        text,
        turn,
        task,
        cell - 2,
        x + u128::from(cell / 2),
        y + 12,
    )
}

/// Appends what a listed task of this place among those shown, if it is shown, runs, by its pick.
fn push_run(
    alloc: Global,
    text: &mut Vec<u8>,
    scale: Scale,
    quantum: Quantum,
    pick: Pick,
    place: Option<u64>,
    drawing: &Drawing,
) -> Result<(), AllocError>
    requires from { scale.from ≤ quantum.slot }
    requires to { quantum.slot ≤ scale.to }
    requires processor { quantum.processor < 64 }
    ensures { OnOk result (text.new.items ≡ text.old.items ++ run_text scale quantum pick place drawing.now) }
{
    match window_in(quantum.slot, drawing) {
        Some(window) => {
            let turn = Turn {
                place,
                sub: u64::from(pick.sub),
                window,
                quantum,
            };
            let task = u64::from(pick.task);
            push_turn(alloc, text, scale, drawing.label(), task, turn)
        }
        None => Ok(()),
    }
}

/// Appends a subtask of a task that is not shown in a processor's row, by its pick.
fn push_other(
    alloc: Global,
    text: &mut Vec<u8>,
    scale: Scale,
    others: &[Drawing],
    quantum: Quantum,
    pick: Pick,
) -> Result<(), AllocError>
    requires from { scale.from ≤ quantum.slot }
    requires to { quantum.slot ≤ scale.to }
    requires processor { quantum.processor < 64 }
    ensures { OnOk result (text.new.items ≡ text.old.items ++ other_text scale others.now quantum pick) }
{
    match place_of(others, pick.task) {
        Some(at) => push_run(alloc, text, scale, quantum, pick, None, &others[at]),
        None => Ok(()),
    }
}

/// Appends a subtask in a processor's row, by its pick.
fn push_pick(
    alloc: Global,
    text: &mut Vec<u8>,
    scale: Scale,
    shown: &[Drawing],
    others: &[Drawing],
    quantum: Quantum,
    pick: Pick,
) -> Result<(), AllocError>
    requires from { scale.from ≤ quantum.slot }
    requires to { quantum.slot ≤ scale.to }
    requires processor { quantum.processor < 64 }
    ensures { OnOk result (text.new.items ≡ text.old.items ++ pick_text scale shown.now others.now quantum pick) }
{
    match place_of(shown, pick.task) {
        Some(place) => {
            let drawing = &shown[place];
            push_run(
                alloc,
                text,
                scale,
                quantum,
                pick,
                Some(place as u64),
                drawing,
            )
        }
        None => push_other(alloc, text, scale, others, quantum, pick),
    }
}

/// Appends slot t with this row in the row of processor p, where so many are in use.
fn push_cell(
    alloc: Global,
    text: &mut Vec<u8>,
    scale: Scale,
    drawings: &TaskDrawings,
    count: u64,
    row: RowView<'_>,
    p: u32,
    t: u64,
) -> Result<(), AllocError>
    requires from { scale.from ≤ t }
    requires to { t ≤ scale.to }
    requires processor { p < 64 }
    ensures { OnOk result (text.new.items ≡ text.old.items ++ cell_text scale drawings.now count (lent_row row.entry) p t) }
{
    if count <= u64::from(p) {
        let y = u128::from(processor_top(u64::from(p)));
        return push_field(alloc, text, "u", scale.x(t), y, scale.cell(), 16);
    }
    match row.get(p) {
        Some(pick) => push_pick(
            alloc,
            text,
            scale,
            drawings.shown(),
            drawings.others(),
            Quantum {
                slot: t,
                processor: p,
            },
            pick,
        ),
        None => Ok(()),
    }
}

/// How many processors are in use in slot t.
fn count_at(counts: &[u64], t: u64) -> u64
    requires { t < length counts.now }
    ensures { result ≡ slice_index_or counts.now t 0 }
{
    counts[t as usize]
}

/// The row of processor p, where so many are in use in each slot.
///
/// # Errors
///
/// Where memory is refused.
#[tactic(auto, unfolding(crate::specs::Processors::processor_text))]
pub(crate) fn processor_text(
    alloc: Global,
    snapshot: &Snapshot,
    scale: Scale,
    drawings: &TaskDrawings,
    counts: &[u64],
    p: u32,
) -> Result<Vec<u8>, AllocError>
    requires processor { p < 64 }
    requires within { scale.to ≤ length snapshot.now.rows }
    requires counts { counts.now ≡ counts_of snapshot.now.state.plan snapshot.now.state.now snapshot.now.rows }
    ensures { IfOk result (λ text. text.items ≡ processor_text snapshot.now scale drawings.now p) }
{
    let mut text = Vec::new(alloc);
    push_name(alloc, &mut text, processor_top(u64::from(p)), p)?;
    for t in scale.from()..scale.to() {
        let row = row_at(snapshot, t);
        let count = count_at(counts, t);
        push_cell(alloc, &mut text, scale, drawings, count, row, p, t)?;
    }
    Ok(text)
}
