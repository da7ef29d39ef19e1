ghost use Rattle.std.specs.Prelude.{◌≡◌, IfOk, map};
ghost use Rattle.pf_arguments.specs.Mistakes.Hints.{near_or};

use pf_message::nearness::near_name;
use std::alloc::{AllocError, Global};

/// The name that a word is near to; this text where it is near to none.
pub(crate) fn near_or(
    alloc: Global,
    word: &str,
    names: &[&str],
    other: &str,
) -> Result<Vec<u8>, AllocError>
    ensures { IfOk result (λ text. text.items ≡ near_or word.now (map (λ n. n.now) names.now) other.now) }
{
    match near_name(alloc, word.as_bytes(), names)? {
        Some(name) => Vec::from_slice(alloc, name.as_bytes()),
        None => Vec::from_slice(alloc, other.as_bytes()),
    }
}
