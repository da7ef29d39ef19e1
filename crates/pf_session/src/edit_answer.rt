ghost use Rattle.std.specs.Prelude.{◌≡◌, ◌++◌, None, IfOk, IfSome, OnOk};
ghost use Rattle.std.specs.Option.{option_map};
ghost use Rattle.pf_answers.specs.Changes.{counts_of, made_text};
ghost use Rattle.pf_answers.specs.Refused.{refused_text};
ghost use Rattle.pf_answers.specs.SlotsChanged.{slots_changed};
ghost use Rattle.pf_desk.specs.Desk.{MakesReady};
ghost use Rattle.pf_desk.specs.declared.command.Command.TheVariants as command;
ghost use Rattle.pf_notes.specs.Refusal.{refusal_text};
ghost use Rattle.pf_scenario.specs.Edit.{edit_fault};
ghost use Rattle.pf_scenario.specs.Scenario.{plan_after};
ghost use Rattle.pf_script_results.specs.Recount.{name_of_change, task_of_change};
ghost use Rattle.pf_session.specs.Answers.{edit_answer};

use crate::session_desk::SessionDesk;
use pf_answers::changes::push_made;
use pf_answers::counts::Counts;
use pf_answers::manner::Manner;
use pf_answers::refused::push_refused;
use pf_answers::slots::{SlotsChanged, slots_changed};
use pf_desk::desk::Desk;
use pf_desk::prepared::Prepared;
use pf_desk::reply::{Fault, Reply};
use pf_desk::snapshot::Snapshot;
use pf_notes::refusal::push_refusal;
use pf_run_notes::notes::name_of;
use pf_scenario::change::Change;
use pf_scenario::scenario::Scenario;
use pf_vocabulary::names::names::Names;
use std::alloc::{AllocError, Global};

/// The answer to a change, and the counts of the desk with it, where they were taken.
#[derive(Drop)]
pub(crate) struct EditAnswer {
    pub(crate) text: Vec<u8>,
    pub(crate) counts: Option<Counts>,
}

/// The task of the event that a change brings.
fn task_of_change(change: Change) -> Option<u64>
    ensures { result ≡ task_of_change change }
{
    match change {
        Change::Insert(event) | Change::Alter(_, event) => event.task(),
        Change::Strike(_) => None,
    }
}

/// Its name.
fn name_of_change(names: &Names, change: Change) -> Option<&[u8]>
    ensures { option_map (λ n. n.now) result ≡ name_of_change names.now change }
{
    match task_of_change(change) {
        Some(task) => name_of(names, task),
        None => None,
    }
}

/// The answer to a change that this scenario refused.
fn refused_answer(
    alloc: Global,
    manner: Manner,
    names: &Names,
    scenario: &Scenario,
    change: Change,
    fault: Fault,
) -> Result<Vec<u8>, AllocError>
    ensures { IfOk result (λ v. v.items ≡ refused_text manner fault (refusal_text (name_of_change names.now change) scenario.now change fault)) }
{
    let mut why = Vec::new(alloc);
    push_refusal(
        &mut why,
        name_of_change(names, change),
        scenario,
        change,
        fault,
    )?;
    let mut answer = Vec::new(alloc);
    push_refused(&mut answer, manner, fault, &why)?;
    Ok(answer)
}

/// What a change that was made did to the rows of the slots stepped.
#[tactic(auto, using(crate::proofs::Alike::slots_alike, crate::proofs::Alike::slots_are))]
fn slots_of(desk: &Desk, snapshot: &Snapshot, change: Change) -> SlotsChanged
    requires made { snapshot.now.state ≡ record desk.now.state { plan = plan_after desk.now.state.plan change } }
    requires faultless { edit_fault desk.now.state.plan change ≡ None }
    ensures { result ≡ slots_changed desk.now.state change }
{
    let scenario = desk.scenario();
    let processors = scenario.settings().processors();
    let touched = scenario.first_slot(&change);
    let now = snapshot.now();
    slots_changed(processors, touched, desk.schedule(), snapshot.rows(), now)
}

/// The answer to a change that was made, of what was there and is there.
fn made_answer(
    alloc: Global,
    manner: Manner,
    desk: &SessionDesk,
    snapshot: &Snapshot,
    change: Change,
    id: u64,
) -> Result<EditAnswer, AllocError>
    requires made { snapshot.now.state ≡ record desk.now.state { plan = plan_after desk.now.state.plan change } }
    requires faultless { edit_fault desk.now.state.plan change ≡ None }
    ensures text { IfOk result (λ a. a.text.items ≡ made_text manner id (slots_changed desk.now.state change) (counts_of desk.now.state) (counts_of snapshot.now.state)) }
    ensures counts { IfOk result (λ a. IfSome a.counts (λ c. c ≡ counts_of snapshot.now.state)) }
{
    let mut answer = Vec::new(alloc);
    if manner.quiet && !manner.json {
        let none = Counts {
            misses: 0,
            denials: 0,
        };
        push_made(&mut answer, manner, id, SlotsChanged::Untouched, none, none)?;
        return Ok(EditAnswer {
            text: answer,
            counts: None,
        });
    }
    let before = desk.counts()?;
    let after = Counts::of_snapshot(snapshot)?;
    let slots = slots_of(desk.as_desk(), snapshot, change);
    push_made(&mut answer, manner, id, slots, before, after)?;
    Ok(EditAnswer {
        text: answer,
        counts: Some(after),
    })
}

/// The answer to a change that was made ready.
#[tactic(auto, using(crate::proofs::Edited::edited_faultless, crate::proofs::Edited::edited_state))]
pub(crate) fn edit_answer(
    alloc: Global,
    manner: Manner,
    names: &Names,
    desk: &SessionDesk,
    prepared: &Prepared,
    change: Change,
    strict: bool,
) -> Result<EditAnswer, AllocError>
    requires { MakesReady 0 (command.Edit change strict) desk.now prepared.now }
    ensures text { IfOk result (λ a. a.text.items ≡ edit_answer manner names.now desk.now.state change strict) }
    ensures counts { IfOk result (λ a. IfSome a.counts (λ c. c ≡ counts_of prepared.now.seen.state)) }
{
    let _ = strict;
    match *prepared.reply() {
        Reply::Edited { id } => {
            made_answer(alloc, manner, desk, prepared.snapshot(), change, id)
        }
        Reply::Refused(fault) => {
            let scenario = desk.as_desk().scenario();
            let text = refused_answer(alloc, manner, names, scenario, change, fault)?;
            Ok(EditAnswer { text, counts: None })
        }
        Reply::Stepped { .. } => Ok(EditAnswer {
            text: Vec::new(alloc),
            counts: None,
        }),
    }
}
