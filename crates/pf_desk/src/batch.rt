ghost use Rattle.std.specs.Prelude.{ℕ, ◌≡◌, ◌≤◌, [], ◌∷◌, ◌++◌, false, min, map, IfOk, OnOk};
ghost use Rattle.pf_desk.specs.declared.command.Command.TheVariants.{Edit};
ghost use Rattle.pf_desk.specs.Desk.{Shown};
ghost use Rattle.pf_desk.specs.Plain.{IsPlainFrom};
ghost use Rattle.pf_desk.specs.Gathered.{IsBatch};

use crate::command::Command;
use crate::entry::Entry;
use crate::reply::{Fault, Reply};
use pf_scenario::change::Change;
use pf_scenario::scenario::Scenario;
use std::alloc::{AllocError, Global};

/// Plain edits of one caller that were judged but not made yet: a desk is to make them at once.
#[derive(Drop)]
pub struct Batch {
    /// Who asked.
    pub caller: u32,
    /// The scenario as it would be.
    pub scenario: Scenario,
    /// The least slot that they touch, or now where that is less.
    pub from: u64,
    /// Their entries.
    pub entries: Vec<Entry>,
}

impl Batch {
    /// No edits yet of a scenario of which so many slots were stepped.
    pub fn new(alloc: Global, caller: u32, scenario: Scenario, now: u64) -> Self
        ensures caller { result.caller ≡ caller }
        ensures scenario { result.scenario ≡ scenario }
        ensures from { result.from ≡ now }
        ensures entries { result.entries.items ≡ [] }
    {
        Batch {
            caller,
            scenario,
            from: now,
            entries: Vec::new(alloc),
        }
    }

    /// Judges one plain edit more, as the machine does after those before it.
    ///
    /// # Errors
    ///
    /// Where memory is refused.
    pub fn judge(&mut self, change: Change) -> Result<(), AllocError>
        ensures batch { (d : Shown) → IsBatch d self.old → OnOk result (IsBatch d self.new) }
        ensures caller { OnOk result (self.new.caller ≡ self.old.caller) }
        ensures commands { OnOk result (map (λ e. e.command) self.new.entries.items ≡ map (λ e. e.command) self.old.entries.items ++ Edit change false ∷ []) }
        ensures from { (s : ℕ) → IsPlainFrom s self.old.scenario (Edit change false) → OnOk result (min s self.old.from ≤ self.new.from) }
    {
        let caller = self.caller;
        let command = Command::Edit {
            change,
            strict: false,
        };
        let checked = match self.scenario.checked(change) {
            Ok(checked) => checked,
            Err(fault) => {
                let reply = Reply::Refused(Fault::BadEdit(fault));
                self.entries.push(Entry {
                    caller,
                    command,
                    reply,
                })?;
                return Ok(());
            }
        };
        let from = self.from.min(checked.first_slot());
        let id = self.scenario.make(checked)?;
        self.from = from;
        self.entries.push(Entry {
            caller,
            command,
            reply: Reply::Edited { id },
        })?;
        Ok(())
    }
}
