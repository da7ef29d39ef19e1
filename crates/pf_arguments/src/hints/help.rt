ghost use Rattle.std.specs.Prelude.{◌≡◌, IfOk, map, option_map};
ghost use Rattle.pf_arguments.specs.Help.{help_meant, help_near};
ghost use Rattle.pf_arguments.specs.Hints.Refused.{help_hint};

use pf_message::nearness::near_name;
use std::alloc::{AllocError, Global};
use std::convert::AsStr;

/// What is meant by `help` and these words, where they are one that is no command and no topic.
pub(crate) fn help_hint<S: AsStr>(alloc: Global, words: &[S]) -> Result<Vec<u8>, AllocError>
    ensures { IfOk result (λ text. text.items ≡ help_hint (map S.text words.now)) }
{
    match words {
        [word] => help_meant(alloc, word.as_str()),
        _ => Ok(Vec::new(alloc)),
    }
}

/// The words that ask for help of the command or topic that a word is near to; of the program where it is near to none.
fn help_meant(alloc: Global, word: &str) -> Result<Vec<u8>, AllocError>
    ensures { IfOk result (λ text. text.items ≡ help_meant word.now) }
{
    let names = [
        "fit", "run", "why", "check", "diff", "convert", "desk", "drill", "plan", "list",
        "formats", "status", "script",
    ];
    help_near(alloc, near_name(alloc, word.as_bytes(), &names)?)
}

/// The words that ask for help of the command or topic of this name; of the program where there is none.
fn help_near(alloc: Global, name: Option<&str>) -> Result<Vec<u8>, AllocError>
    ensures { IfOk result (λ text. text.items ≡ help_near (option_map (λ n. n.now) name.entry)) }
{
    match name {
        Some(name) => {
            let mut text = Vec::from_slice(alloc, b"pfair help ")?;
            text.extend_from_slice(name.as_bytes())?;
            Ok(text)
        }
        None => Vec::from_slice(alloc, b"pfair --help"),
    }
}
