ghost use Rattle.std.specs.Prelude.{◌≡◌, option_map, IfOk};
ghost use Rattle.pf_arguments.specs.Mistakes.Hints.{mistake_hint};

use crate::mistake::Mistake;
use crate::mistakes::formats::format_hint;
use crate::mistakes::lists::{fail_on_hint, tasks_hint};
use crate::mistakes::near::near_or;
use crate::mistakes::slot::slot_hint;
use pf_vocabulary::questions::mistake::WhyMistake;
use std::alloc::{AllocError, Global};

/// What would be right in place of a value that is mistaken, by the text of FILE too; nothing where nothing is near.
pub(crate) fn mistake_hint(
    alloc: Global,
    file: Option<&str>,
    value: &str,
    mistake: Mistake,
) -> Result<Vec<u8>, AllocError>
    ensures { IfOk result (λ text. text.items ≡ mistake_hint (option_map (λ f. f.now) file.entry) value.now mistake) }
{
    match mistake {
        Mistake::UnknownFormat => format_hint(alloc, value),
        Mistake::BadStyle => near_or(alloc, value, &["strips", "stairs"], ""),
        Mistake::BadTasks => tasks_hint(alloc, value),
        Mistake::BadFailOn => fail_on_hint(alloc, value),
        Mistake::Why(WhyMistake::Format) => {
            near_or(alloc, value, &["text", "json"], "text, json")
        }
        Mistake::Why(WhyMistake::Slot) => slot_hint(alloc, file, value),
        _ => Ok(Vec::new(alloc)),
    }
}
