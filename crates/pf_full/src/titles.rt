ghost use Rattle.std.specs.Prelude.{◌≡◌, IfOk};
ghost use Rattle.serde_json.specs.View.{view};
ghost use Rattle.pf_report.specs.Json.{name_data, names_part, slot_data, slot_part};

use pf_report::elements::{ArrayPieces, Elements};
use pf_text::pieces::gathered;
use pf_vocabulary::names::named::Named;
use pf_vocabulary::names::slot_length::SlotLength;
use pf_vocabulary::names::titles::Titles;
use serde_json::{Value, json};
use std::alloc::{AllocError, Global};
use std::marker::Model;

/// A task and its name as an object.
fn name_value(alloc: Global, named: &Named) -> Result<Value, AllocError>
    ensures { IfOk result (λ v. view v ≡ name_data named.now) }
{
    json!(in alloc; {
        "name": named.name.as_str(),
        "task": named.task
    })
}

/// How long a slot is, as an object; null where the script does not tell it.
fn slot_value(alloc: Global, slot: Option<SlotLength>) -> Result<Value, AllocError>
    ensures { IfOk result (λ v. view v ≡ slot_data slot) }
{
    match slot {
        Some(slot) => json!(in alloc; {
            "length": slot.length,
            "unit": slot.unit.word()
        }),
        None => Ok(Value::Null),
    }
}

/// The names of tasks, by task.
#[derive(Drop)]
struct NameRows<'a> {
    names: &'a [Named],
}

impl<'a> Model for NameRows<'a> {
    ghost use Rattle.std.specs.Prelude.{List};
    ghost use Rattle.pf_vocabulary.specs.declared.names.named.Named.{Named};

    ghost Value = { List Named };

    ghost view = { λ r. r.names.now };
}

impl<'a> NameRows<'a> {
    ghost use Rattle.std.specs.Prelude.{◌≡◌, ◌∷◌, ◌+◌, ◌<◌, length, drop};

    /// The one at a place.
    fn get(&self, at: u64) -> &Named
        requires { at < length self.now }
        ensures { drop at self.now ≡ result.now ∷ drop (at + 1) self.now }
    {
        let names = self.names;
        &names[at as usize]
    }

    /// How many there are.
    fn len(&self) -> u64
        ensures { result ≡ length self.now }
    {
        self.names.len() as u64
    }
}

impl Elements for NameRows<'_> {
    ghost use Rattle.std.specs.Prelude.{length, drop, map};
    ghost use Rattle.pf_report.specs.Json.{name_data};

    ghost count = { λ r. length r };

    ghost rest = { λ r at. map name_data (drop at r) };

    fn count(&self) -> u64 {
        self.len()
    }

    fn element(&self, alloc: Global, at: u64) -> Result<Value, AllocError> {
        name_value(alloc, self.get(at))
    }
}

/// The names after their key, where the script is a plan, and else nothing.
///
/// # Errors
///
/// Where memory is refused.
pub(crate) fn names_part(alloc: Global, titles: &Titles) -> Result<Vec<u8>, AllocError>
    ensures { IfOk result (λ text. text.items ≡ names_part titles.now) }
{
    if !titles.is_plan {
        return Ok(Vec::new(alloc));
    }
    let mut text = Vec::from_slice(alloc, b",\"names\":")?;
    let names = NameRows {
        names: titles.names.all(),
    };
    text.extend_from_slice(&gathered(alloc, ArrayPieces::new(names))?)?;
    Ok(text)
}

/// The length of a slot after its key, where the script is a plan, and else nothing.
///
/// # Errors
///
/// Where memory is refused.
pub(crate) fn slot_part(alloc: Global, titles: &Titles) -> Result<Vec<u8>, AllocError>
    ensures { IfOk result (λ text. text.items ≡ slot_part titles.now) }
{
    if !titles.is_plan {
        return Ok(Vec::new(alloc));
    }
    let mut text = Vec::from_slice(alloc, b",\"slot\":")?;
    text.extend_from_slice(&slot_value(alloc, titles.slot)?.to_vec(alloc)?)?;
    Ok(text)
}
