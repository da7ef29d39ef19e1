ghost use Rattle.std.specs.Prelude.{◌≡◌, ◌++◌, OnOk};
ghost use Rattle.pf_picture.specs.Shapes.{bracket_end, bracket_shape, bracket_start, drop_shape, field_shape, label_shape, mark_shape, stretch_shape, words_shape};

use crate::element::push_element;
use std::alloc::{AllocError, Global};

/// Appends a line of this class from (x, y) to the right.
#[tactic(auto, unfolding(crate::specs::Shapes::stretch_shape))]
pub(crate) fn push_stretch(
    alloc: Global,
    text: &mut Vec<u8>,
    class: &str,
    x: u128,
    y: u128,
    to: u128,
) -> Result<(), AllocError>
    ensures { OnOk result (text.new.items ≡ text.old.items ++ stretch_shape class.now x y to) }
{
    let line = format!(in alloc; "<path class=\"{class}\" d=\"M{x} {y}H{to}\"/>\n")?;
    push_element(text, &line)
}

/// Appends a line of this class from (x, y) down.
#[tactic(auto, unfolding(crate::specs::Shapes::drop_shape))]
pub(crate) fn push_drop(
    alloc: Global,
    text: &mut Vec<u8>,
    class: &str,
    x: u128,
    y: u128,
    to: u128,
) -> Result<(), AllocError>
    ensures { OnOk result (text.new.items ≡ text.old.items ++ drop_shape class.now x y to) }
{
    let line = format!(in alloc; "<path class=\"{class}\" d=\"M{x} {y}V{to}\"/>\n")?;
    push_element(text, &line)
}

/// Appends strokes of this class from (x, y) on.
#[tactic(auto, unfolding(crate::specs::Shapes::mark_shape))]
pub(crate) fn push_mark(
    alloc: Global,
    text: &mut Vec<u8>,
    class: &str,
    x: u128,
    y: u128,
    strokes: &str,
) -> Result<(), AllocError>
    ensures { OnOk result (text.new.items ≡ text.old.items ++ mark_shape class.now x y strokes.now) }
{
    let line = format!(in alloc; "<path class=\"{class}\" d=\"M{x} {y}{strokes}\"/>\n")?;
    push_element(text, &line)
}

/// Appends a bracket of this class as far as its base.
#[tactic(auto, unfolding(crate::specs::Shapes::bracket_start))]
fn push_bracket_start(
    alloc: Global,
    text: &mut Vec<u8>,
    class: &str,
    left: u128,
    begin: u128,
    base: u128,
) -> Result<(), AllocError>
    ensures { OnOk result (text.new.items ≡ text.old.items ++ bracket_start class.now left begin base) }
{
    let line = format!(in alloc; "<path class=\"{class}\" d=\"M{left} {begin}V{base}")?;
    push_element(text, &line)
}

/// Appends a bracket from its base on.
#[tactic(auto, unfolding(crate::specs::Shapes::bracket_end))]
fn push_bracket_end(
    alloc: Global,
    text: &mut Vec<u8>,
    right: u128,
    end: u128,
) -> Result<(), AllocError>
    ensures { OnOk result (text.new.items ≡ text.old.items ++ bracket_end right end) }
{
    let line = format!(in alloc; "H{right}V{end}\"/>\n")?;
    push_element(text, &line)
}

/// Appends a bracket over `base` of this class, whose ends reach up to `begin` and `end`.
pub(crate) fn push_bracket(
    alloc: Global,
    text: &mut Vec<u8>,
    class: &str,
    left: u128,
    right: u128,
    base: u128,
    begin: u128,
    end: u128,
) -> Result<(), AllocError>
    ensures { OnOk result (text.new.items ≡ text.old.items ++ bracket_shape class.now left right base begin end) }
{
    push_bracket_start(alloc, text, class, left, begin, base)?;
    push_bracket_end(alloc, text, right, end)
}

/// Appends a field of this class.
#[tactic(auto, unfolding(crate::specs::Shapes::field_shape))]
pub(crate) fn push_field(
    alloc: Global,
    text: &mut Vec<u8>,
    class: &str,
    x: u128,
    y: u128,
    width: u64,
    height: u128,
) -> Result<(), AllocError>
    ensures { OnOk result (text.new.items ≡ text.old.items ++ field_shape class.now x y width height) }
{
    let line = format!(in alloc;
        "<rect class=\"{class}\" x=\"{x}\" y=\"{y}\" width=\"{width}\" height=\"{height}\"/>\n"
    )?;
    push_element(text, &line)
}

/// Appends words at the left side.
#[tactic(auto, unfolding(crate::specs::Shapes::label_shape))]
pub(crate) fn push_label(
    alloc: Global,
    text: &mut Vec<u8>,
    y: u128,
    words: &str,
) -> Result<(), AllocError>
    ensures { OnOk result (text.new.items ≡ text.old.items ++ label_shape y words.now) }
{
    let line = format!(in alloc; "<text x=\"8\" y=\"{y}\">{words}</text>\n")?;
    push_element(text, &line)
}

/// Appends words of this class at (x, y).
#[tactic(auto, unfolding(crate::specs::Shapes::words_shape))]
pub(crate) fn push_words(
    alloc: Global,
    text: &mut Vec<u8>,
    class: &str,
    x: u128,
    y: u128,
    words: &str,
) -> Result<(), AllocError>
    ensures { OnOk result (text.new.items ≡ text.old.items ++ words_shape class.now x y words.now) }
{
    let line = format!(in alloc; "<text class=\"{class}\" x=\"{x}\" y=\"{y}\">{words}</text>\n")?;
    push_element(text, &line)
}
