ghost use Rattle.std.specs.Prelude.{◌≡◌, ◌++◌, ◌+◌, ◌-◌, ◌≤◌, ◌^◌, IfOk, OnOk};
ghost use Rattle.pf_picture.specs.Grid.{block_front, grid_line, grid_text, line_text, shift_text, slot_number, unit_text, unit_words};

use crate::element::push_element;
use crate::scale::{Scale, time_in};
use pf_vocabulary::names::slot_length::SlotLength;
use std::alloc::{AllocError, Global};

/// Appends how far the block lies below the picture's top.
#[tactic(auto, unfolding(crate::specs::Grid::shift_text))]
fn push_shift(alloc: Global, text: &mut Vec<u8>, offset: u128) -> Result<(), AllocError>
    ensures { OnOk result (text.new.items ≡ text.old.items ++ shift_text offset) }
{
    let element = format!(in alloc; "<g transform=\"translate(0 {offset})\">\n")?;
    push_element(text, &element)
}

/// What is counted over the slots: slots, or the unit of their length.
fn unit_words(slot: Option<SlotLength>) -> &'static str
    ensures { result.now ≡ unit_words slot }
{
    match slot {
        Some(slot) => slot.unit.word(),
        None => "slot",
    }
}

/// Appends what is counted over the slots.
#[tactic(auto, unfolding(crate::specs::Grid::unit_text))]
fn push_unit(alloc: Global, text: &mut Vec<u8>, words: &str) -> Result<(), AllocError>
    ensures { OnOk result (text.new.items ≡ text.old.items ++ unit_text words.now) }
{
    let element = format!(in alloc; "<text x=\"8\" y=\"36\">{words}</text>\n")?;
    push_element(text, &element)
}

/// Appends a line down to `bottom` at x.
#[tactic(auto, unfolding(crate::specs::Grid::line_text))]
fn push_line(
    alloc: Global,
    text: &mut Vec<u8>,
    class: &str,
    x: u128,
    bottom: u128,
) -> Result<(), AllocError>
    ensures { OnOk result (text.new.items ≡ text.old.items ++ line_text class.now x bottom) }
{
    let element = format!(in alloc; "<path class=\"{class}\" d=\"M{x} 40V{bottom}\"/>\n")?;
    push_element(text, &element)
}

/// Appends the number or the time of a slot over x.
#[tactic(auto, unfolding(crate::specs::Grid::slot_number))]
fn push_slot_number(alloc: Global, text: &mut Vec<u8>, x: u128, t: u128) -> Result<(), AllocError>
    ensures { OnOk result (text.new.items ≡ text.old.items ++ slot_number x t) }
{
    let element = format!(in alloc; "<text class=\"a\" x=\"{x}\" y=\"36\">{t}</text>\n")?;
    push_element(text, &element)
}

/// Appends the line at the left end of slot t down to `bottom`, with its number where it has one.
fn push_grid_line(
    alloc: Global,
    text: &mut Vec<u8>,
    scale: Scale,
    bottom: u128,
    t: u64,
) -> Result<(), AllocError>
    requires { scale.from ≤ t }
    ensures { OnOk result (text.new.items ≡ text.old.items ++ grid_line scale bottom t) }
{
    let x = scale.x(t);
    if t % scale.step() == 0 {
        push_line(alloc, text, "h", x, bottom)?;
        push_slot_number(alloc, text, x, time_in(scale.slot(), t))
    } else {
        push_line(alloc, text, "g", x, bottom)
    }
}

/// Appends a line at the left end of each slot, and at the right end of the last one, down to `bottom`.
#[tactic(auto, unfolding(crate::specs::Grid::grid_text))]
fn push_grid(
    alloc: Global,
    text: &mut Vec<u8>,
    scale: Scale,
    bottom: u128,
) -> Result<(), AllocError>
    ensures { OnOk result (text.new.items ≡ text.old.items ++ grid_text scale bottom) }
{
    let to = scale.to();
    for t in scale.from()..to + 1 {
        push_grid_line(alloc, text, scale, bottom, t)?;
    }
    Ok(())
}

/// How a block of this height begins, which lies so far below the picture's top.
///
/// # Errors
///
/// Where memory is refused.
#[tactic(auto, unfolding(crate::specs::Grid::block_front))]
pub(crate) fn block_front(
    alloc: Global,
    scale: Scale,
    offset: u128,
    height: u128,
) -> Result<Vec<u8>, AllocError>
    requires { height ≤ 2 ^ 100 }
    ensures { IfOk result (λ text. text.items ≡ block_front scale offset height) }
{
    let mut text = Vec::new(alloc);
    push_shift(alloc, &mut text, offset)?;
    push_unit(alloc, &mut text, unit_words(scale.slot()))?;
    push_grid(alloc, &mut text, scale, height + 8)?;
    Ok(text)
}
