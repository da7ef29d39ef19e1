ghost use Rattle.std.specs.Prelude.{◌≡◌, ◌++◌, IfOk};
ghost use Rattle.pf_message.specs.Form.{position_front};
ghost use Rattle.pf_script.specs.Messages.Lines.{hint_if, lacks_settings, plan_lacks_settings};
ghost use Rattle.pf_script.specs.Messages.PlanTexts.{what_text as plan_what_text};
ghost use Rattle.pf_script.specs.Messages.Texts.{what_text};

use crate::fault::{BadRecord, Reason};
use crate::fields::Fields;
use crate::messages::hint::{HintScope, hint_text};
use crate::messages::plan_hint::hint_text as plan_hint_text;
use crate::messages::plan_what::push_what as push_plan_what;
use crate::messages::what::push_what;
use crate::plan::fault::{BadRecord as PlanBadRecord, Reason as PlanReason};
use crate::plan::state::Progress;
use pf_message::form::{push_hint, push_position_front};
use pf_message::position::Position;
use pf_message::positions::Positions;
use std::alloc::{AllocError, Global};
use std::marker::Model;

/// For how many faults of a script a near word or name is looked for.
pub const NEAR_FAULTS: u64 = 100;

/// The message of a fault.
#[derive(Drop)]
pub struct Message {
    /// The number of the record, counted from 1.
    pub number: u64,
    /// Whether settings are lacking there.
    pub lacks: bool,
    /// Where it is and what is wrong.
    pub what: Vec<u8>,
    /// The line that says what would be right; nothing where nothing can be said.
    pub hint: Vec<u8>,
}

impl Model for Message {
    ghost use Rattle.pf_script.specs.Messages.Lines.{FaultMessage};

    ghost Value = { FaultMessage };

    ghost view = { λ m. record { number = m.number; lacks = m.lacks; what = m.what.items; hint = m.hint.items } };
}

/// The faults of a script that are told one after another.
#[derive(Drop)]
pub struct Telling<'a> {
    alloc: Global,
    file: &'a [u8],
    positions: Positions<'a>,
    hints: bool,
    // For how many more faults a near word is looked for.
    near_left: u64,
}

impl<'a> Model for Telling<'a> {
    ghost use Rattle.pf_script.specs.Messages.Lines.{Telling};

    ghost Value = { Telling };

    ghost view = { λ t. record { file = t.file.now; script = t.positions; hints = t.hints; near_left = t.near_left } };
}

impl<'a> Telling<'a> {
    ghost use Rattle.std.specs.Prelude.{◌≡◌, IfOk, OnOk, nat_lt};
    ghost use Rattle.pf_message.specs.Positions.{is_quote_open};
    ghost use Rattle.pf_script.specs.Messages.Lines.{plain_message, plan_message, position_of, told_one};
    ghost use Rattle.pf_script.specs.PlanCheck.Reports.{shown};
    ghost use Rattle.pf_script.specs.declared.messages.telling.TheConstants.{NEAR_FAULTS};

    /// Before the first fault of a script of this file; with hints, where they are asked for.
    pub fn new(alloc: Global, file: &'a [u8], script: &'a [u8], hints: bool) -> Self
        ensures { result ≡ record { file = file.now; script = script.now; hints = hints; near_left = NEAR_FAULTS } }
    {
        Telling {
            alloc,
            file,
            positions: Positions::new(script),
            hints,
            near_left: NEAR_FAULTS,
        }
    }

    /// Where a field of the record with these fields is; the end of the script where there are none.
    fn position(&mut self, trims: bool, line: u64, number: usize, fields: &Fields) -> Position
        ensures position { result ≡ position_of self.old.script trims line number fields.now }
        ensures same { self.new ≡ self.old }
    {
        if fields.is_empty() {
            self.positions.end(line)
        } else {
            self.positions.field(line, number, trims)
        }
    }

    /// What is known beside the record that begins on this line.
    fn scope(&mut self, line: u64) -> HintScope
        ensures scope { result ≡ record { is_quote_open = is_quote_open self.old.script line; seeks_near = nat_lt 0 self.old.near_left } }
        ensures same { self.new ≡ self.old }
    {
        HintScope {
            is_quote_open: self.positions.is_quote_open(line),
            seeks_near: self.near_left > 0,
        }
    }

    /// The message of a bad record of version 1 or 2 that has these fields.
    ///
    /// # Errors
    ///
    /// Where memory is refused. Nothing is then promised of a further call.
    #[tactic(auto, unfolding(crate::specs::Messages::Lines::plain_message))]
    pub fn plain(&mut self, fields: &Fields, bad: BadRecord) -> Result<Message, AllocError>
        ensures message { IfOk result (λ m. m ≡ plain_message self.old (record { bad = bad; fields = fields.now })) }
        ensures next { OnOk result (self.new ≡ told_one self.old) }
    {
        let alloc = self.alloc;
        let position = self.position(false, bad.line, bad.fault.field, fields);
        let scope = self.scope(bad.line);
        self.near_left = self.near_left.saturating_sub(1);
        let what = plain_what(alloc, self.file, position, fields, bad)?;
        let hint = hint_if(
            alloc,
            self.hints,
            hint_text(alloc, scope, fields, bad.fault)?,
        )?;
        Ok(Message {
            number: bad.number,
            lacks: lacks_settings(bad.fault.reason),
            what,
            hint,
        })
    }

    /// The message of a bad record of a plan that has these fields, where this came before it.
    ///
    /// # Errors
    ///
    /// Where memory is refused. Nothing is then promised of a further call.
    #[tactic(auto, unfolding(crate::specs::Messages::Lines::plan_message))]
    pub fn plan(
        &mut self,
        progress: &Progress,
        fields: &Fields,
        bad: PlanBadRecord,
    ) -> Result<Message, AllocError>
        ensures message { IfOk result (λ m. m ≡ plan_message self.old (shown progress.now bad fields.now)) }
        ensures number { IfOk result (λ m. m.number ≡ bad.number) }
        ensures next { OnOk result (self.new ≡ told_one self.old) }
    {
        let alloc = self.alloc;
        let position = self.position(true, bad.line, bad.fault.field, fields);
        let scope = self.scope(bad.line);
        self.near_left = self.near_left.saturating_sub(1);
        let what = plan_what(alloc, self.file, position, progress, fields, bad)?;
        let names = &progress.names;
        let labels = &progress.labels;
        let hint = plan_hint_text(alloc, scope, names, labels, fields, bad.fault)?;
        let hint = hint_if(alloc, self.hints, hint)?;
        Ok(Message {
            number: bad.number,
            lacks: plan_lacks_settings(bad.fault.reason),
            what,
            hint,
        })
    }
}

/// Whether settings are lacking.
fn lacks_settings(reason: Reason) -> bool
    ensures { result ≡ lacks_settings reason }
{
    matches!(reason, Reason::NoSettings)
}

/// Whether settings are lacking in a plan.
fn plan_lacks_settings(reason: PlanReason) -> bool
    ensures { result ≡ plan_lacks_settings reason }
{
    matches!(reason, PlanReason::NoSettings)
}

/// Where a bad record of version 1 or 2 is, and what is wrong with it.
fn plain_what(
    alloc: Global,
    file: &[u8],
    position: Position,
    fields: &Fields,
    bad: BadRecord,
) -> Result<Vec<u8>, AllocError>
    ensures { IfOk result (λ text. text.items ≡ position_front file.now position ++ what_text fields.now bad.fault) }
{
    let mut text = Vec::new(alloc);
    push_position_front(&mut text, file, position)?;
    push_what(alloc, &mut text, fields, bad.fault)?;
    Ok(text)
}

/// Where a bad record of a plan is, and what is wrong with it.
fn plan_what(
    alloc: Global,
    file: &[u8],
    position: Position,
    progress: &Progress,
    fields: &Fields,
    bad: PlanBadRecord,
) -> Result<Vec<u8>, AllocError>
    ensures { IfOk result (λ text. text.items ≡ position_front file.now position ++ plan_what_text progress.now.names fields.now bad.fault) }
{
    let mut text = Vec::new(alloc);
    push_position_front(&mut text, file, position)?;
    push_plan_what(alloc, &mut text, &progress.names, fields, bad.fault)?;
    Ok(text)
}

/// The line of a hint; nothing where there is none or none is asked for.
pub(crate) fn hint_if(alloc: Global, asked: bool, hint: Vec<u8>) -> Result<Vec<u8>, AllocError>
    ensures { IfOk result (λ text. text.items ≡ hint_if asked hint.items) }
{
    let mut text = Vec::new(alloc);
    if asked && !hint.is_empty() {
        push_hint(&mut text, &hint)?;
    }
    Ok(text)
}
