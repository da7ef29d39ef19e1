ghost use Rattle.std.specs.Prelude.{◌≡◌, ◌==◌, ◌<◌, ◌++◌, IfOk, IfSome, OnOk, length};
ghost use Rattle.std.specs.List.{position};
ghost use Rattle.pf_arguments.specs.Mistakes.Hints.{fail_on_hint, first_wrong, is_turned, list_mended, tasks_hint, turned, without_blanks};

use crate::mistakes::near::near_or;
use pf_text::numbers::parse_number;
use pf_vocabulary::options::fail_on::is_word;
use pf_vocabulary::task_words::task_words::TaskWords;
use std::alloc::{AllocError, Global};

/// The word that is near to the first wrong one in a list of what a run fails on.
pub(crate) fn fail_on_hint(alloc: Global, list: &str) -> Result<Vec<u8>, AllocError>
    ensures { IfOk result (λ text. text.items ≡ fail_on_hint list.now) }
{
    near_or(
        alloc,
        first_wrong(list),
        &["refused", "denied", "missed"],
        "",
    )
}

/// The first wrong word in such a list.
fn first_wrong(list: &str) -> &str
    ensures { result.now ≡ first_wrong list.now }
{
    match list.split(',').find(|word| !is_word(word)) {
        Some(word) => word,
        None => "",
    }
}

/// A list of tasks without its blanks and with its ranges turned, where that is one.
pub(crate) fn tasks_hint(alloc: Global, text: &str) -> Result<Vec<u8>, AllocError>
    ensures { IfOk result (λ hint. hint.items ≡ tasks_hint text.now) }
{
    let mended = list_mended(alloc, text)?;
    if TaskWords::read(alloc, &mended)?.is_none() {
        return Ok(Vec::new(alloc));
    }
    Ok(mended)
}

/// The items of such a list, without their blanks and with their ranges turned.
fn list_mended(alloc: Global, text: &str) -> Result<Vec<u8>, AllocError>
    ensures { IfOk result (λ mended. mended.items ≡ list_mended text.now) }
{
    let mut items = Vec::new(alloc);
    for item in text.split(',') {
        items.push(b',')?;
        push_turned(&mut items, &without_blanks(alloc, item.as_bytes())?)?;
    }
    match items.as_slice() {
        [_, mended @ ..] => Vec::from_slice(alloc, mended),
        [] => Ok(Vec::new(alloc)),
    }
}

/// Bytes without spaces and tabs.
fn without_blanks(alloc: Global, bytes: &[u8]) -> Result<Vec<u8>, AllocError>
    ensures { IfOk result (λ bare. bare.items ≡ without_blanks bytes.now) }
{
    let mut bare = Vec::new(alloc);
    for byte in bytes {
        if *byte != b' ' && *byte != b'\t' {
            bare.push(*byte)?;
        }
    }
    Ok(bare)
}

/// Adds an item, its numbers exchanged where it is a range whose first number is above its last.
fn push_turned(text: &mut Vec<u8>, item: &[u8]) -> Result<(), AllocError>
    ensures { OnOk result (text.new.items ≡ text.old.items ++ turned item.now) }
{
    let Some(dash) = find_dash(item) else {
        return text.extend_from_slice(item);
    };
    let (first, last) = (&item[..dash], &item[dash + 1..]);
    if !is_turned(parse_number(first), parse_number(last)) {
        return text.extend_from_slice(item);
    }
    text.extend_from_slice(last)?;
    text.extend_from_slice(b"-")?;
    text.extend_from_slice(first)
}

/// The place of the first `-`.
fn find_dash(item: &[u8]) -> Option<usize>
    ensures value { result ≡ position (λ byte. byte == 45) item.now }
    ensures within { IfSome result (λ place. place < length item.now) }
{
    item.iter().position(|byte| *byte == b'-')
}

/// Whether the first of two numbers is above the last.
fn is_turned(first: Option<u64>, last: Option<u64>) -> bool
    ensures { result ≡ is_turned first last }
{
    match (first, last) {
        (Some(first), Some(last)) => last < first,
        _ => false,
    }
}
