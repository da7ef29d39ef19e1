ghost use Rattle.std.specs.Prelude.{◌≡◌, IfOk};
ghost use Rattle.serde_json.specs.View.{view};
ghost use Rattle.serde_json.specs.Written.{compact_text};
ghost use Rattle.pf_full.specs.Full.{settings_data};

use pf_scenario::settings::Settings;
use serde_json::{Value, json};
use std::alloc::{AllocError, Global};

/// Settings, with so many slots between checkpoints, as an object.
fn settings_value(alloc: Global, settings: Settings, every: u64) -> Result<Value, AllocError>
    ensures { IfOk result (λ v. view v ≡ settings_data every settings) }
{
    json!(in alloc; {
        "base": settings.base().get(),
        "cap": settings.cap(),
        "every": every,
        "horizon": settings.horizon(),
        "processors": settings.processors()
    })
}

/// The text of the object.
pub(crate) fn settings_text(
    alloc: Global,
    settings: Settings,
    every: u64,
) -> Result<Vec<u8>, AllocError>
    ensures { IfOk result (λ text. text.items ≡ compact_text (settings_data every settings)) }
{
    settings_value(alloc, settings, every)?.to_vec(alloc)
}
