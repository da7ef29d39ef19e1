ghost use Rattle.std.specs.Prelude.{◌≡◌, ◌++◌, ◌<◌, ◌^◌, IfOk, OnOk};
ghost use Rattle.std.specs.String.{string_bytes};
ghost use Rattle.pf_picture.specs.Boxes.{box_text, class_text, colour_text, digits_class, group_words, is_dark, late_words, number_if_room, quantum_words, rect_text, title_text, window_words};

use crate::element::push_element;
use crate::shapes::push_words;
use crate::turn::Turn;
use pf_courses::window::Window;
use std::alloc::{AllocError, Global};

/// The width of a digit.
const DIGIT: u64 = 6;

/// How many colours there are for the tasks.
const COLOURS: u64 = 12;

/// The class of the colour of a quantum.
#[tactic(auto, unfolding(crate::specs::Boxes::place_colour))]
fn colour_of(alloc: Global, turn: Turn) -> Result<String, AllocError>
    ensures { IfOk result (λ class. string_bytes class ≡ colour_text turn) }
{
    match turn.place {
        Some(place) => {
            let colour = place % COLOURS;
            format!(in alloc; "c{colour}")
        }
        None => format!(in alloc; "y"),
    }
}

/// The class of the box of a quantum.
#[tactic(auto, unfolding(crate::specs::Boxes::class_text))]
fn class_of(alloc: Global, turn: Turn) -> Result<String, AllocError>
    ensures { IfOk result (λ class. string_bytes class ≡ class_text turn) }
{
    let colour = colour_of(alloc, turn)?;
    if turn.window.late {
        format!(in alloc; "q t {colour}")
    } else {
        format!(in alloc; "q {colour}")
    }
}

/// Appends the first part of a box.
#[tactic(auto, unfolding(crate::specs::Boxes::rect_text))]
fn push_rect(
    alloc: Global,
    text: &mut Vec<u8>,
    class: &str,
    x: u128,
    y: u128,
    width: u64,
    height: u64,
) -> Result<(), AllocError>
    ensures { OnOk result (text.new.items ≡ text.old.items ++ rect_text class.now x y width height) }
{
    let line = format!(in alloc;
        "<rect class=\"{class}\" x=\"{x}\" y=\"{y}\" width=\"{width}\" height=\"{height}\">"
    )?;
    push_element(text, &line)
}

/// Appends where a quantum is and whose.
#[tactic(auto, unfolding(crate::specs::Boxes::quantum_words))]
fn push_quantum_words(
    alloc: Global,
    text: &mut Vec<u8>,
    label: &str,
    turn: Turn,
) -> Result<(), AllocError>
    ensures { OnOk result (text.new.items ≡ text.old.items ++ quantum_words label.now turn) }
{
    let slot = turn.quantum.slot;
    let processor = turn.quantum.processor;
    let words = format!(in alloc; "<title>slot {slot}, p{processor}: {label}")?;
    push_element(text, &words)
}

/// Appends which subtask it is of, and its window.
#[tactic(auto, unfolding(crate::specs::Boxes::window_words))]
fn push_window_words(alloc: Global, text: &mut Vec<u8>, turn: Turn) -> Result<(), AllocError>
    ensures { OnOk result (text.new.items ≡ text.old.items ++ window_words turn) }
{
    let Turn { sub, window, .. } = turn;
    let Window {
        release,
        deadline,
        ..
    } = window;
    let words = format!(in alloc; ", subtask {sub}, window {release} to {deadline}")?;
    push_element(text, &words)
}

/// Appends the group deadline of a window, if it has one.
#[tactic(auto, unfolding(crate::specs::Boxes::group_words))]
fn push_group_words(alloc: Global, text: &mut Vec<u8>, window: Window) -> Result<(), AllocError>
    ensures { OnOk result (text.new.items ≡ text.old.items ++ group_words window) }
{
    let group = window.group;
    if group == 0 {
        return Ok(());
    }
    let words = format!(in alloc; ", group deadline {group}")?;
    push_element(text, &words)
}

/// Appends by how many slots a quantum ran late, if it did.
#[tactic(auto, unfolding(crate::specs::Boxes::late_words))]
fn push_late_words(alloc: Global, text: &mut Vec<u8>, turn: Turn) -> Result<(), AllocError>
    requires { turn.quantum.slot < 2 ^ 23 }
    ensures { OnOk result (text.new.items ≡ text.old.items ++ late_words turn) }
{
    if !turn.window.late {
        return Ok(());
    }
    let late = (turn.quantum.slot + 1).saturating_sub(turn.window.deadline);
    let words = format!(in alloc; ", late by {late}")?;
    push_element(text, &words)
}

/// Appends what a pointer shows at the box of a quantum.
fn push_title(alloc: Global, text: &mut Vec<u8>, label: &str, turn: Turn) -> Result<(), AllocError>
    requires { turn.quantum.slot < 2 ^ 23 }
    ensures { OnOk result (text.new.items ≡ text.old.items ++ title_text label.now turn) }
{
    push_quantum_words(alloc, text, label, turn)?;
    push_window_words(alloc, text, turn)?;
    push_group_words(alloc, text, turn.window)?;
    push_late_words(alloc, text, turn)?;
    push_element(text, "</title>")
}

/// Appends the box of a quantum of a task with this label.
#[tactic(auto, unfolding(crate::specs::Boxes::box_text))]
pub(crate) fn push_box(
    alloc: Global,
    text: &mut Vec<u8>,
    label: &str,
    turn: Turn,
    x: u128,
    y: u128,
    width: u64,
    height: u64,
) -> Result<(), AllocError>
    requires { turn.quantum.slot < 2 ^ 23 }
    ensures { OnOk result (text.new.items ≡ text.old.items ++ box_text label.now turn x y width height) }
{
    let class = class_of(alloc, turn)?;
    push_rect(alloc, text, &class, x, y, width, height)?;
    push_title(alloc, text, label, turn)?;
    push_element(text, "</rect>\n")
}

/// Whether the colour of a quantum is a dark one.
fn is_dark(turn: Turn) -> bool
    ensures { result ≡ is_dark turn }
{
    match turn.place {
        Some(place) => place % 2 == 1,
        None => false,
    }
}

/// The class of digits on the colour of a quantum.
fn digits_class(turn: Turn) -> &'static str
    ensures { result.now ≡ digits_class turn }
{
    if is_dark(turn) { "n i" } else { "n" }
}

/// Appends a number in the box of a quantum, where there is this much room for it.
#[tactic(auto, unfolding(crate::specs::Boxes::number_if_room))]
pub(crate) fn push_number_if_room(
    alloc: Global,
    text: &mut Vec<u8>,
    turn: Turn,
    n: u64,
    room: u64,
    x: u128,
    y: u128,
) -> Result<(), AllocError>
    ensures { OnOk result (text.new.items ≡ text.old.items ++ number_if_room turn n room x y) }
{
    let digits = format!(in alloc; "{n}")?;
    if digits.len() as u64 > room / DIGIT {
        return Ok(());
    }
    push_words(alloc, text, digits_class(turn), x, y, &digits)
}
