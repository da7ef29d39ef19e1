use crate::fields::Fields;
use crate::plan::fault::{Reason, RecordFault};
use crate::plan::labels::Labels;
use crate::plan::parse::parse_record;
use crate::plan::said::Said;
use pf_vocabulary::names::names::Names;
use pf_vocabulary::names::slot_length::SlotLength;
use std::alloc::{AllocError, Global};

/// How far a plan is after its heading: what came before the next record.
#[derive(Drop)]
pub struct Progress {
    /// Whether the settings came.
    pub opened: bool,
    /// Whether a change or a step came.
    pub begun: bool,
    /// How long a slot is, where that was told.
    pub slot: Option<SlotLength>,
    /// The names of tasks.
    pub names: Names,
    /// The labels of events, each with the number that the insert of its event was given.
    pub labels: Labels,
}

impl Progress {
    ghost use Rattle.std.specs.Prelude.{◌≡◌, OnOk};
    ghost use Rattle.pf_script.specs.Plan.Progress.{at_heading, progress_after};
    ghost use Rattle.pf_script.specs.Plan.Parsing.{end_fault, said_at};

    /// After the heading.
    pub fn new(alloc: Global) -> Self
        ensures { result ≡ at_heading }
    {
        Progress {
            opened: false,
            begun: false,
            slot: None,
            names: Names::new(alloc),
            labels: Labels::new(alloc),
        }
    }

    /// What the next record says.
    ///
    /// # Errors
    ///
    /// Where the record is none of the script's here.
    pub fn read(&self, fields: &Fields) -> Result<Said, RecordFault>
        ensures { result ≡ said_at self.now fields.now }
    {
        parse_record(self, fields)
    }

    /// What is wrong with a script that ends here: it lacks its settings.
    pub fn end_fault(&self) -> Option<RecordFault>
        ensures { result ≡ end_fault self.now }
    {
        if self.opened {
            return None;
        }
        Some(RecordFault {
            field: 1,
            reason: Reason::NoSettings,
        })
    }

    /// Notes what a record said. Where it labels an event, `number` is the one that its insert was given, or 0 where that was
    /// refused.
    ///
    /// # Errors
    ///
    /// Where memory is refused. Nothing is then promised of a further call.
    pub fn note(&mut self, said: Said, number: u64) -> Result<(), AllocError>
        ensures { OnOk result (self.new ≡ progress_after self.old said number) }
    {
        match said {
            Said::Settings(_) => self.opened = true,
            Said::Slot(slot) => self.slot = Some(slot),
            Said::Name(task, name) => {
                if self.names.give(task, name).is_err() {
                    return Err(AllocError);
                }
            }
            Said::Asks(_, label) => {
                self.begun = true;
                if let Some(label) = label {
                    self.labels.give(label, number)?;
                }
            }
        }
        Ok(())
    }
}
