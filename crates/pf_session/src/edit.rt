ghost use Rattle.std.specs.Prelude.{IfOk, OnErr};
ghost use Rattle.pf_session.specs.Edits.{AreSame, HasChanged};
ghost use Rattle.pf_session.specs.Held.{IsThere};

use crate::edit_answer::edit_answer;
use crate::made::number_made;
use crate::pair::extend_both;
use crate::session_desk::SessionDesk;
use pf_answers::manner::Manner;
use pf_order::meter::Meter;
use pf_scenario::change::Change;
use pf_vocabulary::names::names::Names;
use std::alloc::{AllocError, Global};

/// Carries a change out: appends its record to the script and the answer to the text, and gives the number of the event of the reply,
/// where the change was made.
///
/// # Errors
///
/// Where memory is refused: the desk is where it was, and both texts are as before.
pub(crate) fn change_desk(
    alloc: Global,
    manner: Manner,
    names: &Names,
    desk: &mut SessionDesk,
    change: Change,
    strict: bool,
    line: &[u8],
    script: &mut Vec<u8>,
    text: &mut Vec<u8>,
) -> Result<Option<u64>, AllocError>
    ensures ok { IfOk result (λ number. HasChanged manner names.now desk.old change strict number desk.new
        script.old.items line.now text.old.items script.new.items text.new.items) }
    ensures desk { OnErr result (IsThere desk.old desk.new) }
    ensures same { OnErr result (AreSame script.old.items text.old.items script.new.items text.new.items) }
{
    let mut meter = Meter::new();
    let prepared = desk.prepare(&mut meter, change, strict)?;
    let answer = edit_answer(alloc, manner, names, desk, &prepared, change, strict)?;
    extend_both(script, line, text, &answer.text)?;
    let reply = desk.commit(prepared, answer.counts);
    Ok(number_made(&reply))
}
