ghost use Rattle.std.specs.Prelude.{◌≡◌, ◌≤◌, ◌∷◌, [], IfOk, IfSome, OnErr, OnOk};
ghost use Rattle.pf_answers.specs.Changes.{counts_of};
ghost use Rattle.pf_desk.specs.Desk.{IsAsBefore, IsReadyFor, MakesReady};
ghost use Rattle.pf_desk.specs.Machine.{reply_to};
ghost use Rattle.pf_desk.specs.declared.command.Command.TheVariants as command;
ghost use Rattle.pf_report.specs.Replies.{HasFewPlaces};
ghost use Rattle.pf_session.specs.Held.{HasAnswered, IsThere};

use pf_answers::counts::Counts;
use pf_desk::command::Command;
use pf_desk::desk::Desk;
use pf_desk::prepared::Prepared;
use pf_desk::reply::Reply;
use pf_order::meter::Meter;
use pf_scenario::change::Change;
use std::alloc::AllocError;
use std::marker::Model;

/// All commands of a session come from the one caller.
const CALLER: u32 = 0;

/// The desk of a session, and how many windows are missed and events denied there, where the last change counted them.
#[derive(Drop)]
pub(crate) struct SessionDesk {
    desk: Desk,
    counts: Option<Counts>,
}

impl Model for SessionDesk {
    ghost use Rattle.std.specs.Prelude.{◌≡◌, IfSome};
    ghost use Rattle.pf_answers.specs.Changes.{counts_of};
    ghost use Rattle.pf_desk.specs.Desk.{Shown};

    ghost Value = { Shown };

    ghost view = { λ d. d.desk };

    ghost invariant = { λ d. IfSome d.counts (λ c. c ≡ counts_of d.desk.state) };
}

impl SessionDesk {
    /// A desk of which nothing was counted.
    pub(crate) fn new(desk: Desk) -> Self
        ensures { result ≡ desk }
    {
        SessionDesk { desk, counts: None }
    }

    /// The desk itself.
    pub(crate) fn as_desk(&self) -> &Desk
        ensures { result.now ≡ self.now }
    {
        &self.desk
    }

    /// How many windows are missed, and events denied: walks the whole run where the last change did not count them.
    ///
    /// # Errors
    ///
    /// Where memory is refused.
    pub(crate) fn counts(&self) -> Result<Counts, AllocError>
        ensures { IfOk result (λ counts. counts ≡ counts_of self.now.state) }
    {
        match self.counts {
            Some(counts) => Ok(counts),
            None => Counts::of_desk(&self.desk),
        }
    }

    /// Takes a step.
    ///
    /// # Errors
    ///
    /// Where memory is refused: the desk is where it was.
    pub(crate) fn step(&mut self, meter: &mut Meter) -> Result<Reply, AllocError>
        ensures reply { IfOk result (λ reply. reply ≡ reply_to self.old.state command.Step) }
        ensures answered { OnOk result (HasAnswered (command.Step ∷ []) self.old self.new) }
        ensures places { IfOk result (λ reply. HasFewPlaces reply) }
        ensures err { OnErr result (IsThere self.old self.new) }
    {
        self.counts = None;
        Ok(self.desk.apply(meter, CALLER, Command::Step)?)
    }

    /// Makes a change ready, for `commit`.
    ///
    /// # Errors
    ///
    /// Where memory is refused: the desk is as before.
    pub(crate) fn prepare(
        &mut self,
        meter: &mut Meter,
        change: Change,
        strict: bool,
    ) -> Result<Prepared, AllocError>
        ensures ok { IfOk result (λ p. MakesReady 0 (command.Edit change strict) self.old p) }
        ensures ready { IfOk result (λ p. IsReadyFor self.new p) }
        ensures room { OnOk result (1 ≤ self.new.spare) }
        ensures before { IsAsBefore self.old self.new }
    {
        self.desk
            .prepare(meter, CALLER, Command::Edit { change, strict })
    }

    /// Commits a change that was made ready, with the counts of the desk as it then is, where they are known.
    pub(crate) fn commit(&mut self, prepared: Prepared, counts: Option<Counts>) -> Reply
        requires ready { IsReadyFor self.old prepared }
        requires room { 1 ≤ self.old.spare }
        requires counted { IfSome counts (λ c. c ≡ counts_of prepared.seen.state) }
        ensures reply { result ≡ prepared.entry.reply }
        ensures answered { HasAnswered (prepared.entry.command ∷ []) self.old self.new }
    {
        let reply = self.desk.commit(prepared);
        self.counts = counts;
        reply
    }
}
