ghost use Rattle.std.specs.Prelude.{◌≡◌, ◌++◌, IfOk, OnOk};
ghost use Rattle.std.specs.Option.{option_map};
ghost use Rattle.pf_notes.specs.Hints.{refusal_hint};
ghost use Rattle.pf_run_notes.specs.Lines.{hint_if};
ghost use Rattle.pf_run_notes.specs.Refusals.{change_line, fault_code, fault_name, steps_line};

use crate::lines::push_refused;
use crate::place::Place;
use pf_desk::reply::Fault;
use pf_notes::hint::push_refusal_hint;
use pf_notes::refusal::{push_horizon, push_refusal};
use pf_scenario::change::Change;
use pf_scenario::scenario::Scenario;
use std::alloc::{AllocError, Global};
use std::marker::Model;

/// The number of a refusal in the table of refusals.
pub fn fault_code(fault: Fault) -> u64
    ensures { result ≡ fault_code fault }
{
    match fault {
        Fault::BadEdit(fault) => fault.code(),
        Fault::AtHorizon => 30,
        Fault::WouldDeny { .. } => 31,
    }
}

/// Its name there.
pub fn fault_name(fault: Fault) -> &'static str
    ensures { result.now ≡ fault_name fault }
{
    match fault {
        Fault::BadEdit(fault) => fault.name(),
        Fault::AtHorizon => "AtHorizon",
        Fault::WouldDeny { .. } => "WouldDeny",
    }
}

/// A record of the file whose change was refused.
#[derive(Clone, Copy)]
pub struct RefusedChange {
    /// Where it stands.
    pub place: Place,
    /// The change.
    pub change: Change,
    /// Why it was refused.
    pub fault: Fault,
}

/// What would be right in place of a change that this scenario refused, where hints are asked for.
fn change_hint(
    alloc: Global,
    hints: bool,
    scenario: &Scenario,
    refused: RefusedChange,
) -> Result<Vec<u8>, AllocError>
    ensures { IfOk result (λ hint. hint.items ≡ hint_if hints (refusal_hint scenario.now refused.change refused.fault)) }
{
    let mut hint = Vec::new(alloc);
    if hints {
        push_refusal_hint(&mut hint, scenario, refused.change, refused.fault)?;
    }
    Ok(hint)
}

/// Appends the line of a change that this scenario refused, and that of its hint. The name is that of its task, where it has one.
fn push_change_line(
    alloc: Global,
    text: &mut Vec<u8>,
    file: &[u8],
    hints: bool,
    name: Option<&[u8]>,
    scenario: &Scenario,
    refused: RefusedChange,
) -> Result<(), AllocError>
    ensures { OnOk result (text.new.items ≡ text.old.items
        ++ change_line file.now hints refused.place (option_map (λ n. n.now) name.entry) scenario.now refused.change refused.fault) }
{
    let hint = change_hint(alloc, hints, scenario, refused)?;
    let mut sentence = Vec::new(alloc);
    push_refusal(&mut sentence, name, scenario, refused.change, refused.fault)?;
    push_refused(text, file, refused.place, &sentence, &hint)
}

/// Appends the line of steps of a record that were refused at the horizon.
fn push_steps_line(
    alloc: Global,
    text: &mut Vec<u8>,
    file: &[u8],
    place: Place,
    horizon: u64,
    refused: u64,
    steps: u64,
) -> Result<(), AllocError>
    ensures { OnOk result (text.new.items ≡ text.old.items ++ steps_line file.now place horizon refused steps) }
{
    let mut sentence = Vec::new(alloc);
    push_horizon(&mut sentence, horizon, refused, steps)?;
    push_refused(text, file, place, &sentence, b"")
}

/// What is kept of refused commands: the lines of the first records that had one, and how many there were.
#[derive(Drop)]
pub struct Refusals {
    /// Of how many records the lines are kept.
    most: u64,
    lines: Vec<u8>,
    records: u64,
    commands: u64,
}

impl Model for Refusals {
    ghost use Rattle.pf_run_notes.specs.Refusals.{Kept};

    ghost Value = { Kept };

    ghost view = { λ r. record { most = r.most; lines = r.lines.items; records = r.records; commands = r.commands } };
}

impl Refusals {
    ghost use Rattle.std.specs.Prelude.{◌≡◌, [], OnOk};
    ghost use Rattle.std.specs.Option.{option_map};
    ghost use Rattle.pf_run_notes.specs.Refusals.{change_line, kept_after, more, steps_line};

    /// None was refused; lines are to be kept of the first `most` records.
    pub fn new(alloc: Global, most: u64) -> Self
        ensures { result ≡ record { most = most; lines = []; records = 0; commands = 0 } }
    {
        Refusals {
            most,
            lines: Vec::new(alloc),
            records: 0,
            commands: 0,
        }
    }

    /// Of how many records the lines are kept.
    pub fn most(&self) -> u64
        ensures { result ≡ self.now.most }
    {
        self.most
    }

    /// The lines of the first records, in their order.
    pub fn lines(&self) -> &[u8]
        ensures { result.now ≡ self.now.lines }
    {
        &self.lines
    }

    /// How many records had a refused command.
    pub fn records(&self) -> u64
        ensures { result ≡ self.now.records }
    {
        self.records
    }

    /// How many commands were refused.
    pub fn commands(&self) -> u64
        ensures { result ≡ self.now.commands }
    {
        self.commands
    }

    /// Counts a record more, with so many refused commands.
    fn count(&mut self, commands: u64)
        ensures { self.new ≡ record self.old { records = more self.old.records 1; commands = more self.old.commands commands } }
    {
        self.records = self.records.saturating_add(1);
        self.commands = self.commands.saturating_add(commands);
    }

    /// A record's change was refused by this scenario. The name is that of the change's task, where it has one; a line with what would
    /// be right follows where hints are asked for.
    ///
    /// # Errors
    ///
    /// Where memory is refused: what is kept is given up.
    pub fn note_change(
        &mut self,
        alloc: Global,
        file: &[u8],
        hints: bool,
        name: Option<&[u8]>,
        scenario: &Scenario,
        refused: RefusedChange,
    ) -> Result<(), AllocError>
        ensures { OnOk result (self.new ≡ kept_after self.old
            (change_line file.now hints refused.place (option_map (λ n. n.now) name.entry) scenario.now refused.change refused.fault) 1) }
    {
        if self.records < self.most {
            push_change_line(alloc, &mut self.lines, file, hints, name, scenario, refused)?;
        }
        self.count(1);
        Ok(())
    }

    /// Some of a record's steps were refused at the horizon.
    ///
    /// # Errors
    ///
    /// Where memory is refused: what is kept is given up.
    pub fn note_steps(
        &mut self,
        alloc: Global,
        file: &[u8],
        place: Place,
        horizon: u64,
        refused: u64,
        steps: u64,
    ) -> Result<(), AllocError>
        ensures { OnOk result (self.new ≡ kept_after self.old (steps_line file.now place horizon refused steps) refused) }
    {
        if self.records < self.most {
            push_steps_line(alloc, &mut self.lines, file, place, horizon, refused, steps)?;
        }
        self.count(refused);
        Ok(())
    }
}
