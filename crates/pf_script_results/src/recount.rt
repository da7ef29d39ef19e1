ghost use Rattle.std.specs.Prelude.{◌≡◌};
ghost use Rattle.std.specs.Option.{option_map};
ghost use Rattle.pf_script_results.specs.Recount.{name_of_change, refused_change, task_of_change};

use crate::refused_record::RefusedRecord;
use crate::telling::Telling;
use pf_desk::reply::Fault;
use pf_notes::refusal::named_by;
use pf_run_notes::made::Made;
use pf_run_notes::notes::name_of;
use pf_run_notes::place::Place;
use pf_run_notes::refusals::{Refusals, RefusedChange};
use pf_scenario::change::Change;
use pf_scenario::scenario::Scenario;
use pf_vocabulary::names::names::Names;
use std::alloc::{AllocError, Global};
use std::marker::Model;

/// What the records of a script came to.
#[derive(Drop)]
pub struct Recount {
    /// By the number of each event the record that made it as it stands.
    pub made: Made,
    /// The lines of the first refused records, and how many were refused.
    pub refusals: Refusals,
    /// The refused records, where they were asked for.
    pub refused: Vec<RefusedRecord>,
}

impl Model for Recount {
    ghost use Rattle.pf_script_results.specs.Recount.{Recounted};

    ghost Value = { Recounted };

    ghost view = { λ r. record { made = r.made; refusals = r.refusals; refused = r.refused.items } };
}

impl Recount {
    ghost use Rattle.std.specs.Prelude.{◌≡◌, OnOk};
    ghost use Rattle.pf_script_results.specs.Recount.{behind_making, behind_refusal, behind_steps, none_yet, with_record};

    /// No record yet; lines are to be kept of the first `most` refused ones.
    pub(crate) fn new(alloc: Global, most: u64) -> Self
        ensures { result ≡ none_yet most }
    {
        Recount {
            made: Made::new(alloc),
            refusals: Refusals::new(alloc, most),
            refused: Vec::new(alloc),
        }
    }

    /// The change of a record was made.
    pub(crate) fn note_made(&mut self, place: Place, change: Change) -> Result<(), AllocError>
        ensures { OnOk result (self.new ≡ behind_making place change self.old) }
    {
        self.made.note(place, change)
    }

    /// The change of a record was refused by this scenario.
    pub(crate) fn note_refused(
        &mut self,
        telling: &Telling<'_>,
        scenario: &Scenario,
        refused: RefusedChange,
    ) -> Result<(), AllocError>
        ensures { OnOk result (self.new ≡ behind_refusal telling.now.file.now telling.now.hints telling.now.names.now telling.now.whole scenario.now
            refused.place refused.change refused.fault self.old) }
    {
        let name = name_of_change(telling.names, refused.change);
        self.refusals.note_change(
            telling.alloc,
            telling.file,
            telling.hints,
            name,
            scenario,
            refused,
        )?;
        if telling.whole {
            self.refused.push(record_of(scenario, refused))?;
        }
        Ok(())
    }

    /// Some of a record's steps were refused, unless none was.
    pub(crate) fn note_steps(
        &mut self,
        telling: &Telling<'_>,
        place: Place,
        horizon: u64,
        refused: u64,
        steps: u64,
    ) -> Result<(), AllocError>
        ensures { OnOk result (self.new ≡ behind_steps telling.now.file.now telling.now.whole place horizon steps refused self.old) }
    {
        self.refusals.note_steps(telling.alloc, telling.file, place, horizon, refused, steps)?;
        if telling.whole {
            self.refused.push(RefusedRecord {
                place,
                fault: Fault::AtHorizon,
                event: None,
                steps: Some(refused),
            })?;
        }
        Ok(())
    }
}

/// The record of a change that this scenario refused.
fn record_of(scenario: &Scenario, refused: RefusedChange) -> RefusedRecord
    ensures { result ≡ refused_change scenario.now refused.place refused.change refused.fault }
{
    RefusedRecord {
        place: refused.place,
        fault: refused.fault,
        event: named_by(scenario, refused.change, refused.fault),
        steps: None,
    }
}

/// The task of the event that a change brings.
fn task_of_change(change: Change) -> Option<u64>
    ensures { result ≡ task_of_change change }
{
    match change {
        Change::Insert(event) | Change::Alter(_, event) => event.task(),
        Change::Strike(_) => None,
    }
}

/// Its name, where it has one.
fn name_of_change(names: &Names, change: Change) -> Option<&[u8]>
    ensures { option_map (λ n. n.now) result ≡ name_of_change names.now change }
{
    match task_of_change(change) {
        Some(task) => name_of(names, task),
        None => None,
    }
}
