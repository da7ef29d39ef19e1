ghost use Rattle.std.specs.Prelude.{◌≡◌, ◌≤◌};
ghost use Rattle.pf_desk.specs.Views.{lent_reply};
ghost use Rattle.pf_script_results.specs.Replies.{one_if_refused, outcome_of};

use crate::outcome::Outcome;
use crate::stop::Stop;
use pf_desk::command::Command;
use pf_desk::entry_view::EntryView;
use pf_desk::history::History;
use pf_desk::reply_view::ReplyView;
use std::marker::Model;

/// The entries of a history from one of them on.
#[derive(Drop)]
pub(crate) struct Replies<'a> {
    history: &'a History,
    at: usize,
}

impl<'a> Model for Replies<'a> {
    ghost use Rattle.std.specs.Prelude.{List, drop};
    ghost use Rattle.pf_desk.specs.declared.entry.Entry.{Entry};

    ghost Value = { List Entry };

    ghost view = { λ r. drop r.at r.history.now.entries };
}

impl<'a> Replies<'a> {
    ghost use Rattle.std.specs.Prelude.{◌≡◌, ◌≤◌, ◌++◌, List, ◌∷◌, replicate, IfOk, OnOk};
    ghost use Rattle.pf_desk.specs.declared.command.Command.{Command};
    ghost use Rattle.pf_desk.specs.declared.command.Command.TheVariants.{Step};
    ghost use Rattle.pf_script_run.specs.Carried.{asked_in};
    ghost use Rattle.pf_desk.specs.History.{IsLegalFrom};
    ghost use Rattle.pf_desk.specs.Machine.{State};
    ghost use Rattle.pf_desk.specs.Views.{entry_lent};
    ghost use Rattle.pf_plain_script.specs.Carried.{state_behind};
    ghost use Rattle.pf_script_results.specs.Replies.{IsOwn, TakesAnswer, TakesEntry, refused_in};

    /// All entries of a history.
    pub(crate) fn new(history: &'a History) -> Self
        ensures { result ≡ history.now.entries }
    {
        Replies { history, at: 0 }
    }

    /// Takes the next entry, where there is one.
    #[tactic(auto, using(crate::proofs::Walking::next_entry, crate::proofs::Walking::no_entry, crate::proofs::Walking::none_behind))]
    fn next(&mut self) -> Option<EntryView<'a>>
        ensures { TakesEntry (entry_lent result) self.old self.new }
    {
        if self.at >= self.history.len() {
            return None;
        }
        let entry = self.history.entry(self.at)?;
        self.at += 1;
        Some(entry)
    }

    /// Takes the next entry, and tells what the command came to.
    ///
    /// # Errors
    ///
    /// `Foreign` where it is of another command, or there is none.
    pub(crate) fn answer(&mut self, command: Command) -> Result<Outcome, Stop>
        ensures taken { IfOk result (λ outcome. TakesAnswer command outcome self.old self.new) }
        ensures own { (rest : List Command) → asked_in self.old ≡ command ∷ rest → IsOwn result }
    {
        let Some(entry) = self.next() else {
            return Err(Stop::Foreign);
        };
        if entry.command == command {
            Ok(outcome_of(entry.reply))
        } else {
            Err(Stop::Foreign)
        }
    }

    /// Takes the entries of so many steps, and tells how many were refused.
    ///
    /// # Errors
    ///
    /// `Foreign` where there are not so many.
    pub(crate) fn steps(&mut self, count: u64) -> Result<u64, Stop>
        ensures refused { (st : State) → IsLegalFrom st self.old → IfOk result (λ refused. refused ≡ refused_in st (replicate count Step)) }
        ensures legal { (st : State) → IsLegalFrom st self.old → OnOk result (IsLegalFrom (state_behind st (replicate count Step)) self.new) }
        ensures own { (rest : List Command) → asked_in self.old ≡ replicate count Step ++ rest → IsOwn result }
        ensures rest { (rest : List Command) → asked_in self.old ≡ replicate count Step ++ rest → OnOk result (asked_in self.new ≡ rest) }
    {
        let mut refused = 0;
        for _turn in 0..count {
            let outcome = self.answer(Command::Step)?;
            refused += one_if_refused(outcome);
        }
        Ok(refused)
    }
}

/// What a command came to that was answered so.
fn outcome_of(reply: ReplyView<'_>) -> Outcome
    ensures { result ≡ outcome_of (lent_reply reply.entry) }
{
    match reply {
        ReplyView::Edited { .. } | ReplyView::Stepped { .. } => Outcome::Done,
        ReplyView::Refused(fault) => Outcome::Refused(fault),
    }
}

/// One for a refusal.
fn one_if_refused(outcome: Outcome) -> u64
    ensures value { result ≡ one_if_refused outcome }
    ensures most { result ≤ 1 }
{
    match outcome {
        Outcome::Done => 0,
        Outcome::Refused(_) => 1,
    }
}
