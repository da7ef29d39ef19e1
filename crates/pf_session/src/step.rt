ghost use Rattle.std.specs.Prelude.{◌≡◌, ◌⊎◌, ◌<◌, ◌==◌, ◌++◌, ◌∷◌, [], if◌then◌else◌, replicate, Err, IfOk, OnErr, OnOk};
ghost use Rattle.std.specs.List.{flat_map};
ghost use Rattle.pf_answers.specs.Steps.{refused_of, replies_from, step_text, steps_end};
ghost use Rattle.pf_desk.specs.declared.command.Command.TheVariants.{Step};
ghost use Rattle.pf_desk.specs.Machine.{reply_to};
ghost use Rattle.pf_report.specs.Replies.{HasFewPlaces};
ghost use Rattle.pf_plain_script.specs.Carried.{state_behind};
ghost use Rattle.pf_session.specs.Answers.{steps_answer};
ghost use Rattle.pf_session.specs.Amid.{IsAmidSteps};
ghost use Rattle.pf_session.specs.Edits.{AreLonger};
ghost use Rattle.pf_session.specs.Held.{HasAnswered, IsThere};
ghost use Rattle.pf_session.specs.declared.stop.Stop.TheVariants as stop;

use crate::session_desk::SessionDesk;
use crate::stop::Stop;
use pf_answers::manner::Manner;
use pf_answers::steps::{StepsAsked, push_step, push_steps_end, push_steps_front};
use pf_desk::desk::Desk;
use pf_desk::reply::Reply;
use pf_order::meter::Meter;
use std::alloc::{AllocError, Global};

// The bytes of a long row: a text with so much room wants no more memory for the answer to one step.
const ROOM: usize = 4_096;

/// So many steps of a desk.
fn asked_of(desk: &Desk, count: u64) -> StepsAsked
    ensures { result ≡ record { first = desk.now.state.now; horizon = desk.now.state.plan.settings.horizon; refused = refused_of desk.now.state count; count = count } }
{
    let first = desk.now();
    let horizon = desk.scenario().settings().horizon();
    StepsAsked {
        first,
        horizon,
        refused: count.saturating_sub(horizon.saturating_sub(first)),
        count,
    }
}

/// Takes a step after so many of the same record, and appends what it adds.
fn add_step(
    desk: &mut SessionDesk,
    meter: &mut Meter,
    json: bool,
    first: u64,
    turn: u64,
    answer: &mut Vec<u8>,
) -> Result<(), Stop>
    ensures text { OnOk result (answer.new.items ≡ answer.old.items ++ step_text json first (reply_to desk.old.state Step)) }
    ensures answered { OnOk result (HasAnswered (Step ∷ []) desk.old desk.new) }
    ensures err { result ≡ Err stop.NoMemory → IsThere desk.old desk.new × (turn ≡ 0) }
    ensures lost { result ≡ Err stop.Lost → ((0 < turn) × (desk.new.state ≡ desk.old.state)) ⊎ (desk.new.state ≡ state_behind desk.old.state (Step ∷ [])) }
{
    match desk.step(meter) {
        Ok(reply) => push_reply(answer, json, first, &reply),
        Err(_) => Err(stop_at(turn)),
    }
}

/// Appends what a step adds.
fn push_reply(answer: &mut Vec<u8>, json: bool, first: u64, reply: &Reply) -> Result<(), Stop>
    requires { HasFewPlaces reply.now }
    ensures text { OnOk result (answer.new.items ≡ answer.old.items ++ step_text json first reply.now) }
    ensures lost { ¬ (result ≡ Err stop.NoMemory) }
{
    match push_step(answer, json, first, reply.view()) {
        Ok(()) => Ok(()),
        Err(_) => Err(Stop::Lost),
    }
}

/// Takes so many steps, and appends what each adds, the first of which takes the slot `first`.
fn take_steps(
    desk: &mut SessionDesk,
    json: bool,
    first: u64,
    count: u64,
    answer: &mut Vec<u8>,
) -> Result<(), Stop>
    ensures text { OnOk result (answer.new.items ≡ answer.old.items ++ flat_map (step_text json first) (replies_from desk.old.state (replicate count Step))) }
    ensures answered { OnOk result (HasAnswered (replicate count Step) desk.old desk.new) }
    ensures err { result ≡ Err stop.NoMemory → IsThere desk.old desk.new }
    ensures lost { result ≡ Err stop.Lost → IsAmidSteps desk.old.state count desk.new.state }
{
    let mut meter = Meter::new();
    for turn in 0..count {
        add_step(desk, &mut meter, json, first, turn, answer)?;
    }
    Ok(())
}

/// Why steps end that want memory after so many of them.
fn stop_at(turn: u64) -> Stop
    ensures { result ≡ if turn == 0 then stop.NoMemory else stop.Lost }
{
    if turn == 0 {
        Stop::NoMemory
    } else {
        Stop::Lost
    }
}

/// Appends the end of the answer, and then the answer to a text.
fn finish(
    alloc: Global,
    manner: Manner,
    steps: StepsAsked,
    answer: &mut Vec<u8>,
    text: &mut Vec<u8>,
) -> Result<(), AllocError>
    ensures same { OnErr result (text.new.items ≡ text.old.items) }
    ensures text { OnOk result (text.new.items ≡ text.old.items ++ (answer.old.items ++ steps_end manner steps.first steps.horizon steps.refused steps.count)) }
{
    push_steps_end(alloc, answer, manner, steps)?;
    text.extend_from_slice(answer)
}

/// Takes steps, appends what each adds and the end of the answer, and then the answer to a text.
fn take_and_tell(
    alloc: Global,
    manner: Manner,
    desk: &mut SessionDesk,
    steps: StepsAsked,
    answer: &mut Vec<u8>,
    text: &mut Vec<u8>,
) -> Result<(), Stop>
    ensures answered { OnOk result (HasAnswered (replicate steps.count Step) desk.old desk.new) }
    ensures text { OnOk result (text.new.items ≡ text.old.items
        ++ ((answer.old.items ++ flat_map (step_text manner.json steps.first) (replies_from desk.old.state (replicate steps.count Step)))
        ++ steps_end manner steps.first steps.horizon steps.refused steps.count)) }
    ensures err { result ≡ Err stop.NoMemory → IsThere desk.old desk.new }
    ensures lost { result ≡ Err stop.Lost → IsAmidSteps desk.old.state steps.count desk.new.state }
    ensures same { OnErr result (text.new.items ≡ text.old.items) }
{
    take_steps(desk, manner.json, steps.first, steps.count, answer)?;
    match finish(alloc, manner, steps, answer, text) {
        Ok(()) => Ok(()),
        Err(_) => Err(stop_at(steps.count)),
    }
}

/// Carries steps out: appends their record to the script and the answer to the text.
///
/// # Errors
///
/// `NoMemory`: the desk is where it was. `Lost`: it is so many steps on, and at least one. Both texts are as before at both.
pub(crate) fn step_desk(
    alloc: Global,
    manner: Manner,
    desk: &mut SessionDesk,
    count: u64,
    line: &[u8],
    script: &mut Vec<u8>,
    text: &mut Vec<u8>,
) -> Result<(), Stop>
    ensures answered { OnOk result (HasAnswered (replicate count Step) desk.old desk.new) }
    ensures texts { OnOk result (AreLonger script.old.items line.now text.old.items (steps_answer manner desk.old.state count) script.new.items text.new.items) }
    ensures desk { result ≡ Err stop.NoMemory → IsThere desk.old desk.new }
    ensures lost { result ≡ Err stop.Lost → IsAmidSteps desk.old.state count desk.new.state }
    ensures script { OnErr result (script.new.items ≡ script.old.items) }
    ensures same { OnErr result (text.new.items ≡ text.old.items) }
{
    let steps = asked_of(desk.as_desk(), count);
    let mut answer = Vec::with_capacity(alloc, ROOM)?;
    push_steps_front(alloc, &mut answer, manner.json, steps)?;
    text.reserve(ROOM)?;
    let was = script.len();
    script.extend_from_slice(line)?;
    let Err(stop) = take_and_tell(alloc, manner, desk, steps, &mut answer, text) else {
        return Ok(());
    };
    script.truncate(was);
    Err(stop)
}
