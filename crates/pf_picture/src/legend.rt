ghost use Rattle.std.specs.Prelude.{◌≡◌, ◌++◌, ◌≤◌, ◌^◌, IfOk, OnOk};
ghost use Rattle.pf_vocabulary.specs.declared.look.style.Style.TheVariants.{Stairs, Strips};
ghost use Rattle.pf_picture.specs.Legend.{event_items, item_at, item_place, item_text, item_words, legend_text, missed_items, stop_items, style_items, window_items};

use crate::element::push_element;
use crate::scale::Scale;
use pf_vocabulary::look::style::Style;
use std::alloc::{AllocError, Global};

/// Appends where an item begins.
#[tactic(auto, unfolding(crate::specs::Legend::item_place))]
fn push_place(alloc: Global, text: &mut Vec<u8>, x: u128, y: u128) -> Result<(), AllocError>
    ensures { OnOk result (text.new.items ≡ text.old.items ++ item_place x y) }
{
    let element = format!(in alloc; "<g transform=\"translate({x} {y})\">")?;
    push_element(text, &element)
}

/// Appends what a sign means.
#[tactic(auto, unfolding(crate::specs::Legend::item_words))]
fn push_words(alloc: Global, text: &mut Vec<u8>, words: &str) -> Result<(), AllocError>
    ensures { OnOk result (text.new.items ≡ text.old.items ++ item_words words.now) }
{
    let element = format!(in alloc; "<text x=\"28\" y=\"10\">{words}</text></g>\n")?;
    push_element(text, &element)
}

/// Appends a sign and what it means.
fn push_item_at(
    alloc: Global,
    text: &mut Vec<u8>,
    x: u128,
    y: u128,
    sign: &str,
    words: &str,
) -> Result<(), AllocError>
    ensures { OnOk result (text.new.items ≡ text.old.items ++ item_at x y sign.now words.now) }
{
    push_place(alloc, text, x, y)?;
    push_element(text, sign)?;
    push_words(alloc, text, words)
}

/// Appends the item of this place, below blocks that end at `end`.
fn push_item(
    alloc: Global,
    text: &mut Vec<u8>,
    scale: Scale,
    end: u128,
    place: u128,
    sign: &str,
    words: &str,
) -> Result<(), AllocError>
    requires end { end ≤ 2 ^ 100 }
    requires place { place ≤ 11 }
    ensures { OnOk result (text.new.items ≡ text.old.items ++ item_text scale end place sign.now words.now) }
{
    let columns = scale.columns();
    let x = 8 + 172 * (place % columns);
    let y = end + 36 + 16 * (place / columns);
    push_item_at(alloc, text, x, y, sign, words)
}

/// Appends what is drawn of a window.
#[tactic(auto, unfolding(crate::specs::Legend::window_items))]
fn push_window_items(
    alloc: Global,
    text: &mut Vec<u8>,
    scale: Scale,
    end: u128,
) -> Result<(), AllocError>
    requires { end ≤ 2 ^ 100 }
    ensures { OnOk result (text.new.items ≡ text.old.items ++ window_items scale end) }
{
    push_item(
        alloc,
        text,
        scale,
        end,
        0,
        "<rect class=\"q c0\" x=\"1\" y=\"1\" width=\"20\" height=\"10\"/><text class=\"n\" x=\"11\" y=\"10\">0</text>",
        "quantum, its processor",
    )?;
    push_item(
        alloc,
        text,
        scale,
        end,
        1,
        "<path class=\"w\" d=\"M1 1V11H21V1\"/>",
        "window",
    )?;
    push_item(
        alloc,
        text,
        scale,
        end,
        2,
        "<path class=\"e\" d=\"M1 11H21\"/>",
        "may run before it",
    )
}

/// Appends what is drawn of a missed window.
#[tactic(auto, unfolding(crate::specs::Legend::missed_items))]
fn push_missed_items(
    alloc: Global,
    text: &mut Vec<u8>,
    scale: Scale,
    end: u128,
) -> Result<(), AllocError>
    requires { end ≤ 2 ^ 100 }
    ensures { OnOk result (text.new.items ≡ text.old.items ++ missed_items scale end) }
{
    push_item(
        alloc,
        text,
        scale,
        end,
        3,
        "<path class=\"v\" d=\"M1 1V11H21V1\"/>",
        "missed window",
    )?;
    push_item(
        alloc,
        text,
        scale,
        end,
        4,
        "<path class=\"o\" d=\"M1 6H21\"/>",
        "late, until it ran",
    )
}

/// Appends what strips have of their own: group deadlines as triangles, and lags.
#[tactic(auto, unfolding(crate::specs::Legend::style_items))]
fn push_strip_items(
    alloc: Global,
    text: &mut Vec<u8>,
    scale: Scale,
    end: u128,
) -> Result<(), AllocError>
    requires { end ≤ 2 ^ 100 }
    ensures { OnOk result (text.new.items ≡ text.old.items ++ style_items Strips scale end) }
{
    push_item(
        alloc,
        text,
        scale,
        end,
        5,
        "<path class=\"d\" d=\"M11 3l-3 5h6z\"/>",
        "group deadline",
    )?;
    push_item(
        alloc,
        text,
        scale,
        end,
        6,
        "<path class=\"z\" d=\"M1 8H21\"/><path class=\"k\" d=\"M1 8H8V3H14V10H21\"/>",
        "lag, up where owed",
    )
}

/// Appends what stairs have of their own: group deadlines as lines, and slots in two windows.
#[tactic(auto, unfolding(crate::specs::Legend::style_items))]
fn push_stair_items(
    alloc: Global,
    text: &mut Vec<u8>,
    scale: Scale,
    end: u128,
) -> Result<(), AllocError>
    requires { end ≤ 2 ^ 100 }
    ensures { OnOk result (text.new.items ≡ text.old.items ++ style_items Stairs scale end) }
{
    push_item(
        alloc,
        text,
        scale,
        end,
        5,
        "<path class=\"l\" d=\"M11 0V12\"/><path class=\"d\" d=\"M11 3l-3 5h6z\"/>",
        "group deadline",
    )?;
    push_item(
        alloc,
        text,
        scale,
        end,
        6,
        "<rect class=\"b\" x=\"1\" width=\"20\" height=\"12\"/>",
        "in two windows",
    )
}

/// Appends what each style has of its own.
fn push_style_items(
    alloc: Global,
    text: &mut Vec<u8>,
    scale: Scale,
    end: u128,
) -> Result<(), AllocError>
    requires { end ≤ 2 ^ 100 }
    ensures { OnOk result (text.new.items ≡ text.old.items ++ style_items scale.style scale end) }
{
    match scale.style() {
        Style::Strips => push_strip_items(alloc, text, scale, end),
        Style::Stairs => push_stair_items(alloc, text, scale, end),
    }
}

/// Appends what stands still.
#[tactic(auto, unfolding(crate::specs::Legend::stop_items))]
fn push_stop_items(
    alloc: Global,
    text: &mut Vec<u8>,
    scale: Scale,
    end: u128,
) -> Result<(), AllocError>
    requires { end ≤ 2 ^ 100 }
    ensures { OnOk result (text.new.items ≡ text.old.items ++ stop_items scale end) }
{
    push_item(
        alloc,
        text,
        scale,
        end,
        7,
        "<rect class=\"s\" x=\"1\" width=\"20\" height=\"12\"/>",
        "clock stopped",
    )?;
    push_item(
        alloc,
        text,
        scale,
        end,
        8,
        "<rect class=\"u\" x=\"1\" width=\"20\" height=\"12\"/>",
        "processor out of use",
    )
}

/// Appends what befalls a task.
#[tactic(auto, unfolding(crate::specs::Legend::event_items))]
fn push_event_items(
    alloc: Global,
    text: &mut Vec<u8>,
    scale: Scale,
    end: u128,
) -> Result<(), AllocError>
    requires { end ≤ 2 ^ 100 }
    ensures { OnOk result (text.new.items ≡ text.old.items ++ event_items scale end) }
{
    push_item(
        alloc,
        text,
        scale,
        end,
        9,
        "<path class=\"j\" d=\"M8 3l6 3l-6 3z\"/>",
        "joins",
    )?;
    push_item(
        alloc,
        text,
        scale,
        end,
        10,
        "<path class=\"j\" d=\"M14 3l-6 3l6 3z\"/>",
        "left",
    )?;
    push_item(
        alloc,
        text,
        scale,
        end,
        11,
        "<path class=\"x\" d=\"M8 3l6 6m0-6l-6 6\"/>",
        "event denied",
    )
}

/// What the signs mean, below blocks that end at `end`, and the picture's end.
///
/// # Errors
///
/// Where memory is refused.
#[tactic(auto, unfolding(crate::specs::Legend::legend_text))]
pub(crate) fn legend(alloc: Global, scale: Scale, end: u128) -> Result<Vec<u8>, AllocError>
    requires { end ≤ 2 ^ 100 }
    ensures { IfOk result (λ text. text.items ≡ legend_text scale end) }
{
    let mut text = Vec::new(alloc);
    push_window_items(alloc, &mut text, scale, end)?;
    push_missed_items(alloc, &mut text, scale, end)?;
    push_style_items(alloc, &mut text, scale, end)?;
    push_stop_items(alloc, &mut text, scale, end)?;
    push_event_items(alloc, &mut text, scale, end)?;
    push_element(&mut text, "</svg>\n")?;
    Ok(text)
}
