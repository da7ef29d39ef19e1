ghost use Rattle.std.specs.Prelude.{◌≡◌, ◌++◌, codes, IfOk, OnOk};
ghost use Rattle.std.specs.Fmt.{decimal};
ghost use Rattle.pf_chart.specs.Chart.{count_text, head_with, legend_text, length_text, range_text, settings_text, settings_with, signs_text, task_head_with, task_legend_text};

use pf_scenario::settings::Settings;
use pf_vocabulary::names::slot_length::SlotLength;
use std::alloc::{AllocError, Global};

/// What the signs of the processors' lines mean.
const PROCESSORS: &[u8] = b"\nprocessors: a task by its symbol, - idle, # out of use\n";

/// What they mean where tasks may be left out.
const SOME_LEFT_OUT: &[u8] =
    b"\nprocessors: a task by its symbol, . one left out, - idle, # out of use\n";

/// What the signs of the tasks' lines mean.
const SIGNS: &[u8] = b"task: its processor where it runs, . waits, ! waits behind its deadline
windows: [ first slot, ] last, X last and next first, I only slot
lag: = none, + - owed or ahead by less than one quantum, 1-9 * owed, a-z ~ ahead
marks: > joins, < left, ~ clock stopped, ^ runs late, x denied
";

/// The legend that begins with this line.
fn legend_behind(alloc: Global, line: &[u8]) -> Result<Vec<u8>, AllocError>
    ensures { IfOk result (λ text. text.items ≡ line.now ++ signs_text) }
{
    let mut text = Vec::from_slice(alloc, line)?;
    text.extend_from_slice(SIGNS)?;
    Ok(text)
}

/// The legend.
///
/// # Errors
///
/// Where memory is refused.
pub fn legend(alloc: Global) -> Result<Vec<u8>, AllocError>
    ensures { IfOk result (λ text. text.items ≡ legend_text) }
{
    legend_behind(alloc, PROCESSORS)
}

/// The legend of a chart from which tasks may be left out.
///
/// # Errors
///
/// Where memory is refused.
pub fn task_legend(alloc: Global) -> Result<Vec<u8>, AllocError>
    ensures { IfOk result (λ text. text.items ≡ task_legend_text) }
{
    legend_behind(alloc, SOME_LEFT_OUT)
}

/// Appends a word and a number.
fn push_number(
    alloc: Global,
    text: &mut Vec<u8>,
    word: &[u8],
    number: u64,
) -> Result<(), AllocError>
    ensures { OnOk result (text.new.items ≡ text.old.items ++ (word.now ++ decimal number)) }
{
    let digits = format!(in alloc; "{number}")?;
    text.extend_from_slice(word)?;
    text.extend_from_slice(digits.as_bytes())
}

/// Appends the range.
fn push_range(
    alloc: Global,
    text: &mut Vec<u8>,
    now: u64,
    from: u64,
    to: u64,
) -> Result<(), AllocError>
    ensures { OnOk result (text.new.items ≡ text.old.items ++ range_text now from to) }
{
    push_number(alloc, text, b"slots ", from)?;
    push_number(alloc, text, b" to ", to)?;
    push_number(alloc, text, b" of ", now)?;
    text.extend_from_slice(b"; ")
}

/// Appends the settings, as the numbers that they are.
fn push_settings(
    alloc: Global,
    text: &mut Vec<u8>,
    processors: u64,
    base: u64,
    cap: u64,
) -> Result<(), AllocError>
    ensures { OnOk result (text.new.items ≡ text.old.items ++ settings_with processors base cap) }
{
    push_number(alloc, text, b"processors ", processors)?;
    push_number(alloc, text, b"; base ", base)?;
    push_number(alloc, text, b"; cap ", cap)
}

/// Appends how long a slot is, where that is told.
fn push_length(
    alloc: Global,
    text: &mut Vec<u8>,
    slot: Option<SlotLength>,
) -> Result<(), AllocError>
    ensures { OnOk result (text.new.items ≡ text.old.items ++ length_text slot) }
{
    let Some(length) = slot else {
        return Ok(());
    };
    let told = format!(in alloc; "; slot {length}")?;
    text.extend_from_slice(told.as_bytes())
}

/// Appends the range of the `now` slots, the settings, and how long a slot is, where that is told.
fn push_words(
    alloc: Global,
    text: &mut Vec<u8>,
    settings: Settings,
    slot: Option<SlotLength>,
    now: u64,
    from: u64,
    to: u64,
) -> Result<(), AllocError>
    ensures { OnOk result (text.new.items ≡ text.old.items ++ (range_text now from to ++ settings_text settings ++ length_text slot)) }
{
    push_range(alloc, text, now, from, to)?;
    let processors = u64::from(settings.processors());
    let base = settings.base().get();
    push_settings(alloc, text, processors, base, settings.cap())?;
    push_length(alloc, text, slot)
}

/// The head: the range of the `now` slots, the settings, and how long a slot is, where that is told.
///
/// # Errors
///
/// Where memory is refused.
pub fn head(
    alloc: Global,
    settings: Settings,
    slot: Option<SlotLength>,
    now: u64,
    from: u64,
    to: u64,
) -> Result<Vec<u8>, AllocError>
    ensures { IfOk result (λ text. text.items ≡ head_with settings slot now from to) }
{
    let mut text = Vec::new(alloc);
    push_words(alloc, &mut text, settings, slot, now, from, to)?;
    text.push(b'\n')?;
    Ok(text)
}

/// Appends how many of the listed tasks are shown.
fn push_count(alloc: Global, text: &mut Vec<u8>, shown: u64, listed: u64) -> Result<(), AllocError>
    ensures { OnOk result (text.new.items ≡ text.old.items ++ count_text shown listed) }
{
    push_number(alloc, text, b"; tasks ", shown)?;
    push_number(alloc, text, b" of ", listed)
}

/// The head of a chart that shows so many of the listed tasks.
///
/// # Errors
///
/// Where memory is refused.
pub fn task_head(
    alloc: Global,
    settings: Settings,
    slot: Option<SlotLength>,
    shown: u64,
    listed: u64,
    now: u64,
    from: u64,
    to: u64,
) -> Result<Vec<u8>, AllocError>
    ensures { IfOk result (λ text. text.items ≡ task_head_with settings slot shown listed now from to) }
{
    let mut text = Vec::new(alloc);
    push_words(alloc, &mut text, settings, slot, now, from, to)?;
    push_count(alloc, &mut text, shown, listed)?;
    text.push(b'\n')?;
    Ok(text)
}
