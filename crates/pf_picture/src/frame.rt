ghost use Rattle.std.specs.Prelude.{◌≡◌, ◌++◌, IfOk, OnOk};
ghost use Rattle.std.specs.String.{string_bytes};
ghost use Rattle.pf_vocabulary.specs.declared.look.style.Style.{Style};
ghost use Rattle.pf_picture.specs.Frame.{background_text, counts_words, each_words, front_text, length_words, opening_text, range_line, settings_line, settings_words, strips_words, style_text, tasks_line, title_line};

use crate::element::push_element;
use crate::scale::Scale;
use crate::summary::Summary;
use pf_vocabulary::look::style::Style;
use pf_vocabulary::names::slot_length::SlotLength;
use std::alloc::{AllocError, Global};

/// The styles by their classes.
const STYLE: &str =
    "<style>text{font:10px monospace;fill:#222}.n{text-anchor:middle;fill:#000}.i{fill:#fff}.a{text-anchor:middle;fill:#555}\
.m{text-anchor:end}.f{fill:#fff}.g{stroke:#eee}.h{stroke:#bbb}.w{fill:none;stroke:#456}\
.v{fill:none;stroke:#c00;stroke-width:2}.e{stroke:#456;stroke-dasharray:2 2}.q{stroke:#456}\
.t{stroke:#c00;stroke-width:2}.o{stroke:#c00;stroke-dasharray:1 1}.d{fill:#456}.l{stroke:#456;stroke-dasharray:4 2}\
.b{fill:#cde}.s,.y{fill:#ddd}.u{fill:#888}.z{stroke:#999;stroke-dasharray:1 2}.k{fill:none;stroke:#06c}\
.x{fill:none;stroke:#c00;stroke-width:2}.r{fill:#b00}.j{fill:#080}.c0{fill:#fdb}.c1{fill:#755}.c2{fill:#3b3}\
.c3{fill:#00d}.c4{fill:#b99}.c5{fill:#035}.c6{fill:#b9f}.c7{fill:#570}.c8{fill:#ddf}.c9{fill:#37b}\
.c10{fill:#bf0}.c11{fill:#330}@media screen and (prefers-color-scheme:dark){text{fill:#ddd}.a{fill:#aaa}\
.f{fill:#16181d}.g{stroke:#26292f}.h{stroke:#50555d}.w,.e,.q,.l{stroke:#9ab}.d{fill:#9ab}.b{fill:#354a63}\
.s{fill:#3a3d44}.u{fill:#666}.z{stroke:#777}.k{stroke:#6bf}.v,.t,.o,.x{stroke:#f66}.r{fill:#f88}.j{fill:#5c5}}\
@media print{svg{max-width:100%;height:auto}}</style>\n";

/// Appends how large the picture is.
#[tactic(auto, unfolding(crate::specs::Frame::opening_text))]
fn push_opening(
    alloc: Global,
    text: &mut Vec<u8>,
    width: u128,
    height: u128,
) -> Result<(), AllocError>
    ensures { OnOk result (text.new.items ≡ text.old.items ++ opening_text width height) }
{
    let element = format!(in alloc;
        "<svg xmlns=\"http://www.w3.org/2000/svg\" lang=\"en\" role=\"img\" viewBox=\"0 0 {width} {height}\" width=\"{width}\" height=\"{height}\">\n"
    )?;
    push_element(text, &element)
}

/// Appends the title for a reader of the page's text.
#[tactic(auto, unfolding(crate::specs::Frame::title_line))]
fn push_title(alloc: Global, text: &mut Vec<u8>, summary: &Summary) -> Result<(), AllocError>
    ensures { OnOk result (text.new.items ≡ text.old.items ++ title_line summary.now) }
{
    let Summary {
        from,
        to,
        stepped,
        ..
    } = *summary;
    let element = format!(in alloc;
        "<title>PD2 schedule, slots {from} to {to} of {stepped}</title>\n"
    )?;
    push_element(text, &element)
}

/// Appends the first half of the description: the tasks and the settings.
#[tactic(auto, unfolding(crate::specs::Frame::settings_words))]
fn push_settings_words(
    alloc: Global,
    text: &mut Vec<u8>,
    summary: &Summary,
) -> Result<(), AllocError>
    ensures { OnOk result (text.new.items ≡ text.old.items ++ settings_words summary.now) }
{
    let Summary {
        processors,
        base,
        cap,
        shown,
        listed,
        ..
    } = *summary;
    let element = format!(in alloc;
        "<desc>Tasks {shown} of {listed}; processors {processors}; base {base}; cap {cap}; "
    )?;
    push_element(text, &element)
}

/// Appends the other half of the description: what went wrong.
#[tactic(auto, unfolding(crate::specs::Frame::counts_words))]
fn push_counts_words(alloc: Global, text: &mut Vec<u8>, summary: &Summary) -> Result<(), AllocError>
    ensures { OnOk result (text.new.items ≡ text.old.items ++ counts_words summary.now) }
{
    let Summary { missed, denied, .. } = *summary;
    let element = format!(in alloc; "missed windows {missed}; denied events {denied}.</desc>\n")?;
    push_element(text, &element)
}

/// Appends the styles.
#[tactic(auto, unfolding(crate::specs::Frame::style_text))]
fn push_style(text: &mut Vec<u8>) -> Result<(), AllocError>
    ensures { OnOk result (text.new.items ≡ text.old.items ++ style_text) }
{
    push_element(text, STYLE)
}

/// Appends what everything stands on.
#[tactic(auto, unfolding(crate::specs::Frame::background_text))]
fn push_background(
    alloc: Global,
    text: &mut Vec<u8>,
    width: u128,
    height: u128,
) -> Result<(), AllocError>
    ensures { OnOk result (text.new.items ≡ text.old.items ++ background_text width height) }
{
    let element = format!(in alloc; "<rect class=\"f\" width=\"{width}\" height=\"{height}\"/>\n")?;
    push_element(text, &element)
}

/// How long a slot is, in words.
#[tactic(auto, unfolding(crate::specs::Frame::length_words))]
fn length_words(alloc: Global, slot: SlotLength) -> Result<String, AllocError>
    ensures { IfOk result (λ words. string_bytes words ≡ length_words slot) }
{
    let length = slot.length;
    let word = slot.unit.word();
    format!(in alloc; ", {length} {word} each")
}

/// How long a slot is, where that is told.
fn each_words(alloc: Global, slot: Option<SlotLength>) -> Result<String, AllocError>
    ensures { IfOk result (λ words. string_bytes words ≡ each_words slot) }
{
    match slot {
        Some(slot) => length_words(alloc, slot),
        None => Ok(String::new(alloc)),
    }
}

/// Appends which of the slots are shown, and these words of their length.
#[tactic(auto, unfolding(crate::specs::Frame::range_line))]
fn push_range(
    alloc: Global,
    text: &mut Vec<u8>,
    summary: &Summary,
    each: &str,
) -> Result<(), AllocError>
    ensures { OnOk result (text.new.items ≡ text.old.items ++ range_line summary.now each.now) }
{
    let Summary {
        from,
        to,
        stepped,
        processors,
        ..
    } = *summary;
    let element = format!(in alloc;
        "<text x=\"8\" y=\"16\">slots {from} to {to} of {stepped}{each}; processors {processors}</text>\n"
    )?;
    push_element(text, &element)
}

/// How many quanta a strip of a lag has, where there are strips.
#[tactic(auto, unfolding(crate::specs::Frame::strips_words))]
fn strips_words(alloc: Global, style: Style, strips: u64) -> Result<String, AllocError>
    ensures { IfOk result (λ words. string_bytes words ≡ strips_words style strips) }
{
    match style {
        Style::Strips => format!(in alloc; "; lag strips {strips}"),
        Style::Stairs => Ok(String::new(alloc)),
    }
}

/// Appends the settings, and these words of the strips.
#[tactic(auto, unfolding(crate::specs::Frame::settings_line))]
fn push_settings(
    alloc: Global,
    text: &mut Vec<u8>,
    summary: &Summary,
    strips: &str,
) -> Result<(), AllocError>
    ensures { OnOk result (text.new.items ≡ text.old.items ++ settings_line summary.now strips.now) }
{
    let Summary { base, cap, .. } = *summary;
    let element = format!(in alloc;
        "<text x=\"8\" y=\"30\">base {base}; cap {cap}{strips}</text>\n"
    )?;
    push_element(text, &element)
}

/// Appends how many tasks are shown, and what went wrong.
#[tactic(auto, unfolding(crate::specs::Frame::tasks_line))]
fn push_tasks(alloc: Global, text: &mut Vec<u8>, summary: &Summary) -> Result<(), AllocError>
    ensures { OnOk result (text.new.items ≡ text.old.items ++ tasks_line summary.now) }
{
    let Summary {
        shown,
        listed,
        missed,
        denied,
        ..
    } = *summary;
    let element = format!(in alloc;
        "<text x=\"8\" y=\"44\">tasks {shown} of {listed}; missed windows {missed}; denied events {denied}</text>\n"
    )?;
    push_element(text, &element)
}

/// Appends what a reader of the page's text is told.
fn push_description(alloc: Global, text: &mut Vec<u8>, summary: &Summary) -> Result<(), AllocError>
    ensures { OnOk result (text.new.items ≡ text.old.items ++ title_line summary.now ++ settings_words summary.now ++ counts_words summary.now) }
{
    push_title(alloc, text, summary)?;
    push_settings_words(alloc, text, summary)?;
    push_counts_words(alloc, text, summary)
}

/// What stands before the blocks of a picture of this height: its size, what it is in words, the styles, and the head.
///
/// # Errors
///
/// Where memory is refused.
#[tactic(auto, unfolding(crate::specs::Frame::front_text))]
pub(crate) fn front(
    alloc: Global,
    scale: Scale,
    height: u128,
    summary: &Summary,
) -> Result<Vec<u8>, AllocError>
    ensures { IfOk result (λ text. text.items ≡ front_text scale height summary.now) }
{
    let strips = strips_words(alloc, scale.style(), scale.strips())?;
    let each = each_words(alloc, scale.slot())?;
    let mut text = Vec::new(alloc);
    push_opening(alloc, &mut text, scale.width(), height)?;
    push_description(alloc, &mut text, summary)?;
    push_style(&mut text)?;
    push_background(alloc, &mut text, scale.width(), height)?;
    push_range(alloc, &mut text, summary, &each)?;
    push_settings(alloc, &mut text, summary, &strips)?;
    push_tasks(alloc, &mut text, summary)?;
    Ok(text)
}
