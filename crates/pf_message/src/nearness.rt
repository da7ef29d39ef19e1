ghost use Rattle.std.specs.Prelude.{◌≡◌, ◌<◌, ◌≤◌, IfOk, IfSome, IsUtf8, drop, length, map};
ghost use Rattle.std.specs.List.{list_all};
ghost use Rattle.std.specs.Option.{option_map};
ghost use Rattle.pf_message.specs.Nearness.{distance, is_ascii_byte, most_edits, name_at, near_name, nearest_name};

use std::alloc::{AllocError, Global};
use std::str::from_utf8;
use strsim::osa_distance;

/// The longest word that is near to a name, in bytes.
pub const LONGEST_WORD: usize = 24;

/// Whether each of these bytes is ASCII.
fn are_ascii(bytes: &[u8]) -> bool
    ensures { result ≡ list_all is_ascii_byte bytes.now }
{
    for byte in bytes {
        if !byte.is_ascii() {
            return false;
        }
    }
    true
}

/// How many edits a word may be away from a name that it is near to; none where it is near to no name.
#[tactic(auto, using(crate::proofs::Ascii::ascii_text))]
fn most_edits(word: &[u8]) -> Option<usize>
    ensures most { result ≡ most_edits word.now }
    ensures text { IfSome result (λ _. IsUtf8 word.now) }
{
    if word.len() > LONGEST_WORD || !are_ascii(word) {
        return None;
    }
    if word.len() == 2 {
        return Some(1);
    }
    Some(word.len() / 3)
}

/// How many edits lead from a word to a name, in letters of any case: a byte put in, taken out or changed, or two neighbours
/// exchanged, none of them twice (`strsim::osa_distance`).
#[tactic(auto, unfolding(crate::specs::Nearness::distance))]
fn distance(alloc: Global, word: &str, name: &str) -> Result<usize, AllocError>
    ensures { IfOk result (λ edits. edits ≡ distance word.now name.now) }
{
    let lowered = word.to_ascii_lowercase(alloc)?;
    osa_distance(alloc, &lowered, &name.to_ascii_lowercase(alloc)?)
}

/// The place of the name that a word is nearest to, the first of those that are equally near, and how many edits lead to it.
#[tactic(auto, using(crate::proofs::Nearest::next_nearer, crate::proofs::Nearest::next_farther, crate::proofs::Nearest::no_more))]
fn nearest_place(alloc: Global, word: &str, names: &[&str]) -> Result<(usize, usize), AllocError>
    requires some { 1 ≤ length names.now }
    ensures name { IfOk result (λ best. name_at names.now best.0 ≡ nearest_name word.now (name_at names.now 0) (map (λ n. n.now) (drop 1 names.now))) }
    ensures edits { IfOk result (λ best. best.1 ≡ distance word.now (name_at names.now best.0)) }
    ensures within { IfOk result (λ best. best.0 < length names.now) }
{
    let mut best = 0;
    let mut least = distance(alloc, word, names[0])?;
    for place in 1..names.len() {
        let edits = distance(alloc, word, names[place])?;
        if edits < least {
            best = place;
            least = edits;
        }
    }
    Ok((best, least))
}

/// The name that a word, which is none of them, is near to: the first of those to which the fewest edits lead, where these are at
/// most a third of the word's bytes, or 1 of 2. A word of more than 24 bytes, or with one above 127, is near to none.
///
/// # Errors
///
/// Where memory is refused.
#[tactic(auto, using(crate::proofs::Nearest::first_of))]
pub fn near_name<'a>(
    alloc: Global,
    word: &[u8],
    names: &[&'a str],
) -> Result<Option<&'a str>, AllocError>
    ensures { IfOk result (λ name. option_map (λ n. n.now) name ≡ near_name word.now (map (λ n. n.now) names.now)) }
{
    let Some(most) = most_edits(word) else {
        return Ok(None);
    };
    let Ok(word) = from_utf8(word) else {
        return Ok(None);
    };
    if names.is_empty() {
        return Ok(None);
    }
    let (best, edits) = nearest_place(alloc, word, names)?;
    if edits > most {
        return Ok(None);
    }
    Ok(Some(names[best]))
}
