ghost use Rattle.std.specs.Prelude.{◌≡◌, ◌^◌, ◌<◌, string_bytes, IfOk};
ghost use Rattle.pf_why_text.specs.Answer.{answer_text, behind_text, choice_text, does_text, early_text, late_text, rule_text, seat_text, subtask_text};
ghost use Rattle.pf_why.specs.Rule.{rule_of};

use pf_vocabulary::names::names::Names;
use pf_why::rule::Rule;
use pf_why::seat::{Choice, Seat};
use pf_why::subtask::Subtask;
use std::alloc::{AllocError, Global};

/// A subtask: its task, by its name where it has one, and its number.
pub(crate) fn subtask_words(
    alloc: Global,
    names: &Names,
    task: u64,
    sub: u64,
) -> Result<String, AllocError>
    ensures { IfOk result (λ words. string_bytes words ≡ subtask_text names.now task sub) }
{
    match names.of_task(task) {
        Some(name) => format!(in alloc; "{}/{sub}", name.as_str()),
        None => format!(in alloc; "{task}/{sub}"),
    }
}

/// Why a subtask sits on its processor.
fn choice_words(alloc: Global, choice: Choice) -> Result<String, AllocError>
    ensures { IfOk result (λ words. string_bytes words ≡ choice_text choice) }
{
    match choice {
        Choice::Kept => format!(in alloc; ", kept"),
        Choice::LowestFree => format!(in alloc; ", lowest free"),
        Choice::OutOfUse(processor) => {
            format!(in alloc; ", lowest free, p{processor} is out of use")
        }
    }
}

/// Where a subtask runs, and why there.
fn seat_words(alloc: Global, seat: Seat) -> Result<String, AllocError>
    ensures { IfOk result (λ words. string_bytes words ≡ seat_text seat) }
{
    let choice = choice_words(alloc, seat.choice)?;
    format!(in alloc; "runs on p{}{choice}", seat.processor)
}

/// The rule by which y comes after x.
fn rule_words(alloc: Global, x: Subtask, y: Subtask) -> Result<String, AllocError>
    ensures { IfOk result (λ words. string_bytes words ≡ rule_text (rule_of x y) x y) }
{
    match Rule::between(x, y) {
        Rule::Deadline => format!(in alloc; "deadline {} after {}", y.deadline, x.deadline),
        Rule::Bit => format!(in alloc; "same deadline, bit 0 after 1"),
        Rule::Group => format!(in alloc;
            "same deadline, both bits 1, group deadline {} after {}",
            y.group, x.group
        ),
        Rule::Task if y.bit == 1 => format!(in alloc;
            "same deadline, both bits 1, same group deadline, task {} after {}",
            y.task, x.task
        ),
        Rule::Task => format!(in alloc;
            "same deadline, both bits 0, task {} after {}",
            y.task, x.task
        ),
    }
}

/// That y waits behind x, the last that runs, and by which rule.
fn behind_words(alloc: Global, names: &Names, y: Subtask, x: Subtask) -> Result<String, AllocError>
    ensures { IfOk result (λ words. string_bytes words ≡ behind_text names.now y x) }
{
    let last = subtask_words(alloc, names, x.task, x.sub)?;
    let rule = rule_words(alloc, x, y)?;
    format!(in alloc; "waits behind {last}: {rule}")
}

/// By how many slots a subtask is early in slot t.
fn early_words(alloc: Global, t: u64, y: Subtask) -> Result<String, AllocError>
    ensures { IfOk result (λ words. string_bytes words ≡ early_text t y) }
{
    if t < y.release {
        format!(in alloc; "; early by {}", y.release - t)
    } else {
        Ok(String::new(alloc))
    }
}

/// By how many slots a subtask is late in slot t.
fn late_words(alloc: Global, t: u64, y: Subtask) -> Result<String, AllocError>
    requires { t < 2 ^ 63 }
    ensures { IfOk result (λ words. string_bytes words ≡ late_text t y) }
{
    if t >= y.deadline {
        format!(in alloc; "; late by {}", t + 1 - y.deadline)
    } else {
        Ok(String::new(alloc))
    }
}

/// Where a subtask runs, or else after which one it waits.
fn does_words(
    alloc: Global,
    names: &Names,
    last: Option<Subtask>,
    seat: Option<Seat>,
    y: Subtask,
) -> Result<String, AllocError>
    ensures { IfOk result (λ words. string_bytes words ≡ does_text names.now last seat y) }
{
    match (seat, last) {
        (Some(seat), _) => seat_words(alloc, seat),
        (None, Some(last)) => behind_words(alloc, names, y, last),
        (None, None) => Ok(String::new(alloc)),
    }
}

/// What a subtask of a ranking does in slot t (below 2^63): where it runs, and why there, or, where it has no seat, after
/// which one it waits, the last that runs, and by which rule; and by how many slots it is early or late.
///
/// # Errors
///
/// Where memory is refused.
pub fn answer_words(
    alloc: Global,
    names: &Names,
    t: u64,
    last: Option<Subtask>,
    seat: Option<Seat>,
    y: Subtask,
) -> Result<String, AllocError>
    requires { t < 2 ^ 63 }
    ensures { IfOk result (λ words. string_bytes words ≡ answer_text names.now t last seat y) }
{
    let does = does_words(alloc, names, last, seat, y)?;
    let early = early_words(alloc, t, y)?;
    let late = late_words(alloc, t, y)?;
    format!(in alloc; "{does}{early}{late}")
}
