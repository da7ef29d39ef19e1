ghost use Rattle.std.specs.Prelude.{◌≡◌, [], None, IfOk, OnOk};
ghost use Rattle.pf_stream.specs.Dialogue.Ahead.{IsAhead, ahead_of};
ghost use Rattle.pf_stream.specs.Dialogue.Sits.{HasSat, IsTold, NextRound, talk_of};

use crate::dialogue::ahead::Ahead;
use crate::dialogue::answers::{Answers, Going, Stopped};
use crate::dialogue::dialogue::Dialogue;
use crate::dialogue::fault::SitFault;
use std::sync::Wait;

/// Answers the lines that come in, until they end (`Going::On`) or one of them is the last (`Going::Ends`). Each answer is told before
/// more is asked for than came already, and what was answered is kept before it is told. Lines that came at once are answered in one
/// round, as long as their answers have at most `TEXT_HELD` bytes; with an answer that makes them more, they are kept and told before
/// the next line is answered. A line goes with the line feed that ends it; the last one may lack it, where it ends at the end of what
/// comes in. Of a line that has more than `LINE_KEPT` bytes before that, these are taken for all of it.
///
/// # Errors
///
/// `Deaf` and `Mute` where the dialogue fails; `NoMemory` where memory is refused: what was answered by then was told; `Unkept` where
/// what was answered in the last round could not be kept: nothing of that was told.
#[tactic(auto, using(crate::proofs::DialogueLemmas::Rounds::sat_not))]
pub fn sit<H: AllocGlobal + Wait, A: Answers, D: Dialogue>(
    rt: &H,
    answers: &mut A,
    dialogue: &mut D,
) -> Result<Going, SitFault>
    requires { D.is_open dialogue.old }
    ensures { HasSat (talk_of A.answers A.stops A.keeps A.loses D.hears D.is_deaf D.tells D.is_mute) answers.old dialogue.old result answers.new dialogue.new }
{
    let alloc = rt.alloc();
    let Ok(mut ahead) = Ahead::new(alloc) else {
        return Err(SitFault::NoMemory);
    };
    let mut text = Vec::new(alloc);
    hold_rounds(rt, answers, dialogue, &mut ahead, &mut text)
}

/// Holds one round after another, until one is the last.
fn hold_rounds<H: Wait, A: Answers, D: Dialogue>(
    rt: &H,
    answers: &mut A,
    dialogue: &mut D,
    ahead: &mut Ahead,
    text: &mut Vec<u8>,
) -> Result<Going, SitFault>
    requires open { D.is_open dialogue.old }
    requires is { IsAhead ahead.old }
    requires none { ahead_of ahead.old ≡ [] }
    ensures { HasSat (talk_of A.answers A.stops A.keeps A.loses D.hears D.is_deaf D.tells D.is_mute) answers.old dialogue.old result answers.new dialogue.new }
{
    'rounds: for _ in rt.forever() {
        match hold_round(answers, dialogue, ahead, text) {
            Ok(None) => {}
            Ok(Some(going)) => return Ok(going),
            Err(fault) => return Err(fault),
        }
    }
    unreachable!()
}

/// Asks for more where nothing is left of what came, answers the lines that are ahead as far as answers are held back, keeps that, and
/// tells the answers. Gives how it ended, if it did.
fn hold_round<A: Answers, D: Dialogue>(
    answers: &mut A,
    dialogue: &mut D,
    ahead: &mut Ahead,
    text: &mut Vec<u8>,
) -> Result<Option<Going>, SitFault>
    requires open { D.is_open dialogue.old }
    requires is { IsAhead ahead.old }
    ensures open { OnOk result (D.is_open dialogue.new) }
    ensures is { IfOk result (λ next. next ≡ None → IsAhead ahead.new) }
    ensures round { NextRound (talk_of A.answers A.stops A.keeps A.loses D.hears D.is_deaf D.tells D.is_mute) answers.old dialogue.old (ahead_of ahead.old) result answers.new dialogue.new (ahead_of ahead.new) }
{
    let ends = match ahead.hear(dialogue) {
        Ok(ends) => ends,
        Err(_) => return Err(SitFault::Deaf),
    };
    text.clear();
    if ends {
        let going = ahead.take_last(answers, text);
        return match tell_answers(answers, dialogue, going, text) {
            Ok(going) => Ok(Some(going)),
            Err(fault) => Err(fault),
        };
    }
    let going = ahead.take(answers, text);
    match tell_answers(answers, dialogue, going, text) {
        Ok(Going::On) => Ok(None),
        Ok(Going::Ends) => Ok(Some(Going::Ends)),
        Err(fault) => Err(fault),
    }
}

/// Keeps what was answered of what came, tells the answers, and then how it was answered.
fn tell_answers<A: Answers, D: Dialogue>(
    answers: &mut A,
    dialogue: &mut D,
    going: Result<Going, Stopped>,
    text: &[u8],
) -> Result<Going, SitFault>
    requires { D.is_open dialogue.old }
    ensures open { OnOk result (D.is_open dialogue.new) }
    ensures told { IsTold (talk_of A.answers A.stops A.keeps A.loses D.hears D.is_deaf D.tells D.is_mute) going answers.old dialogue.old text.now result answers.new dialogue.new }
{
    answers.keep()?;
    dialogue.tell(text)?;
    Ok(going?)
}
