//! An edit, though memory may be refused. Where it is, all that can be read of the desk is held against what it was before, and
//! the edit is made again.

use crate::refused::say;
use crate::shown::{Shown, is_shown};
use pf_desk::command::Command;
use pf_desk::desk::Desk;
use pf_desk::reply::Fault;
use pf_desk::reply_view::ReplyView;
use pf_order::meter::Meter;
use std::alloc::AllocError;
use std::process::Abort;

/// What an edit is answered: the number of its event, or why it was refused.
pub(crate) type Answer = Result<u64, Fault>;

/// The edit's answer.
fn answer(reply: ReplyView<'_>) -> Option<Answer> {
    match reply {
        ReplyView::Edited { id } => Some(Ok(id)),
        ReplyView::Refused(fault) => Some(Err(fault)),
        ReplyView::Stepped { .. } => None,
    }
}

/// The answer that the desk's last entry has.
fn entered(desk: &Desk) -> Option<Answer> {
    let entry = desk.history().last()?;
    answer(entry.reply)
}

/// Makes an edit. A caller that needs no clause of `Desk::apply` calls this.
fn edit(desk: &mut Desk, command: Command) -> Result<Option<Answer>, AllocError> {
    match desk.apply(&mut Meter::new(), 0, command) {
        Ok(reply) => Ok(answer(reply.view())),
        Err(error) => Err(error),
    }
}

/// Makes an edit. Where memory is refused, the desk must show what it showed before, and the edit is made again.
fn edit_again(
    rt: &(impl Abort + Print),
    desk: &mut Desk,
    (name, command): (&str, Command),
    before: Shown<'_>,
) -> Option<Answer> {
    match edit(desk, command) {
        Ok(answer) => answer,
        Err(AllocError) => {
            say(rt, name);
            is_shown(rt, desk, before);
            edit(desk, command).expect(rt, "memory is ample")
        }
    }
}

/// An edit.
#[derive(Clone, Copy)]
pub(crate) struct Case<'a> {
    /// Its name.
    pub(crate) name: &'a str,
    /// The edit.
    pub(crate) command: Command,
    /// What the desk shows before it.
    pub(crate) before: Shown<'a>,
    /// What it is answered.
    pub(crate) answer: Answer,
    /// What the desk shows then.
    pub(crate) after: Shown<'a>,
}

/// Fails where the edit is answered otherwise, or the desk shows something else before it or after it.
pub(crate) fn is_edited(rt: &(impl Abort + Print), desk: &mut Desk, case: Case<'_>) {
    is_shown(rt, desk, case.before);
    let answer = edit_again(rt, desk, (case.name, case.command), case.before);
    assert_eq!(rt; answer, Some(case.answer));
    assert_eq!(rt; entered(desk), Some(case.answer));
    is_shown(rt, desk, case.after);
}
