ghost use Rattle.std.specs.Prelude.{ℕ, ◌≡◌, ◌<◌, ◌≤◌, ◌*◌, length, map, max, take, All, IfOk, OnOk, OnErr, Some};
ghost use Rattle.pf_order.specs.Counted.{CountsAtMost};
ghost use Rattle.pf_desk.specs.declared.command.Command.TheVariants.{Step};
ghost use Rattle.pf_desk.specs.Plain.{IsPlain, ArePlainFrom};
ghost use Rattle.pf_desk.specs.Gathered.{IsBatch, AnswersFirst};
ghost use Rattle.pf_desk.specs.Desk.{IsDesk, IsAsBefore, AnswersAll, most_replayed};

use crate::batch::Batch;
use crate::command::Command;
use crate::desk::Desk;
use pf_order::meter::Meter;
use std::alloc::AllocError;
use std::mem;

impl Desk {
    /// Answers the caller's commands one after another, each as the machine does at its point. Plain edits that follow one
    /// another count no more slots together than one edit that touches the least slot of theirs: where all commands are
    /// plain edits that have a fault or touch no slot below s, at most now - s slots in all and the distance of two
    /// checkpoints. Counts at most one slot for each command where all are steps, else at most as many for each as are
    /// stepped in the end, or one where none is.
    ///
    /// # Errors
    ///
    /// Where memory is refused: the first commands were answered, as many as came before a step or an edit that wanted it,
    /// and of plain edits that follow one another all or none.
    pub fn apply_all(
        &mut self,
        meter: &mut Meter,
        caller: u32,
        commands: &[Command],
    ) -> Result<(), AllocError>
        ensures ok { OnOk result (AnswersAll caller commands.now self.old self.new) }
        ensures err { OnErr result
            ((k : ℕ) × (k < length commands.now) × AnswersAll caller (take k commands.now) self.old self.new) }
        ensures desk { IsDesk self.new }
        ensures at_most { CountsAtMost (length commands.now * max 1 self.new.state.now) meter.old meter.new }
        ensures steps { All (λ c. c ≡ Step) commands.now → CountsAtMost (length commands.now) meter.old meter.new }
        ensures plain { (s : ℕ) → ArePlainFrom s self.old.state commands.now →
            CountsAtMost (most_replayed self.old.state.now self.old.every (Some s)) meter.old meter.new }
        ensures compared { meter.old.compared ≤ meter.new.compared }
    {
        // A field is read, so that what holds of every desk is known also where there is no command.
        let _ = &self.history;
        let mut done = 0;
        while done < commands.len() {
            done += self.apply_front(meter, caller, &commands[done..])?;
        }
        Ok(())
    }

    /// Answers the plain edits that the commands begin with, or else the first command, and gives how many these are.
    fn apply_front(
        &mut self,
        meter: &mut Meter,
        caller: u32,
        commands: &[Command],
    ) -> Result<usize, AllocError>
        requires { 0 < length commands.now }
        ensures ok { IfOk result (λ k. AnswersFirst k caller commands.now self.old self.new) }
        ensures err { OnErr result (IsAsBefore self.old self.new) }
        ensures desk { IsDesk self.new }
        ensures at_most { CountsAtMost (max 1 self.old.state.now) meter.old meter.new }
        ensures steps { All (λ c. c ≡ Step) commands.now → CountsAtMost 1 meter.old meter.new }
        ensures plain { (s : ℕ) → ArePlainFrom s self.old.state commands.now →
            CountsAtMost (most_replayed self.old.state.now self.old.every (Some s)) meter.old meter.new }
        ensures whole { All IsPlain commands.now → IfOk result (λ k. k ≡ length commands.now) }
        ensures compared { meter.old.compared ≤ meter.new.compared }
    {
        let plain = plain_edits(commands);
        if plain > 1 {
            self.edit_all(meter, caller, &commands[..plain])?;
            return Ok(plain);
        }
        let _ = self.apply(meter, caller, commands[0])?;
        Ok(1)
    }

    /// Answers the caller's plain edits one after another: each is judged after those before it, and the slots are replayed
    /// once.
    fn edit_all(
        &mut self,
        meter: &mut Meter,
        caller: u32,
        commands: &[Command],
    ) -> Result<(), AllocError>
        requires { All IsPlain commands.now }
        ensures ok { OnOk result (AnswersAll caller commands.now self.old self.new) }
        ensures err { OnErr result (IsAsBefore self.old self.new) }
        ensures desk { IsDesk self.new }
        ensures within { CountsAtMost self.old.state.now meter.old meter.new }
        ensures from { (s : ℕ) → ArePlainFrom s self.old.state commands.now →
            CountsAtMost (most_replayed self.old.state.now self.old.every (Some s)) meter.old meter.new }
        ensures compared { meter.old.compared ≤ meter.new.compared }
    {
        let alloc = self.history.alloc();
        let mut batch = Batch::new(
            alloc,
            caller,
            self.run.scenario.copy()?,
            self.run.timeline.now(),
        );
        for command in commands {
            match *command {
                Command::Edit { change, strict: _ } => batch.judge(change)?,
                Command::Step => unreachable!(),
            }
        }
        self.enter(meter, batch)
    }

    /// Makes a batch of edits of this desk.
    fn enter(&mut self, meter: &mut Meter, batch: Batch) -> Result<(), AllocError>
        requires { IsBatch self.old batch }
        ensures ok { OnOk result (AnswersAll batch.caller (map (λ e. e.command) batch.entries.items) self.old self.new) }
        ensures err { OnErr result (IsAsBefore self.old self.new) }
        ensures desk { IsDesk self.new }
        ensures at_most { CountsAtMost (most_replayed self.old.state.now self.old.every (Some batch.from)) meter.old meter.new }
        ensures compared { meter.old.compared ≤ meter.new.compared }
    {
        let mut batch = batch;
        if batch.from < self.run.timeline.now() {
            self.enter_past(meter, &mut batch)
        } else {
            self.enter_ahead(&mut batch)
        }
    }

    /// Makes a batch of edits that touch no slot below now: the run so far stays, and the batch is left with the scenario
    /// before.
    fn enter_ahead(&mut self, batch: &mut Batch) -> Result<(), AllocError>
        requires batch { IsBatch self.old batch.old }
        requires ahead { self.old.state.now ≤ batch.old.from }
        ensures ok { OnOk result (AnswersAll batch.old.caller (map (λ e. e.command) batch.old.entries.items) self.old self.new) }
        ensures err { OnErr result (IsAsBefore self.old self.new) }
        ensures desk { IsDesk self.new }
    {
        self.history.enter_all(&batch.entries)?;
        mem::swap(&mut self.run.scenario, &mut batch.scenario);
        Ok(())
    }

    /// Makes a batch of edits that touch slots below now: the run so far is replayed apart, once for all of them, and
    /// the batch is left with the scenario before.
    fn enter_past(&mut self, meter: &mut Meter, batch: &mut Batch) -> Result<(), AllocError>
        requires batch { IsBatch self.old batch.old }
        requires below { batch.old.from < self.old.state.now }
        ensures ok { OnOk result (AnswersAll batch.old.caller (map (λ e. e.command) batch.old.entries.items) self.old self.new) }
        ensures err { OnErr result (IsAsBefore self.old self.new) }
        ensures desk { IsDesk self.new }
        ensures at_most { CountsAtMost (most_replayed self.old.state.now self.old.every (Some batch.old.from)) meter.old meter.new }
        ensures compared { meter.old.compared ≤ meter.new.compared }
    {
        let timeline = self
            .run
            .timeline
            .rewritten(meter, batch.from, &batch.scenario)?;
        self.history.enter_all(&batch.entries)?;
        mem::swap(&mut self.run.scenario, &mut batch.scenario);
        self.run.timeline = timeline;
        Ok(())
    }
}

/// How many plain edits the commands begin with.
fn plain_edits(commands: &[Command]) -> usize
    ensures within { result ≤ length commands.now }
    ensures plain { All IsPlain (take result commands.now) }
    ensures whole { All IsPlain commands.now → result ≡ length commands.now }
{
    let mut count = 0;
    for command in commands {
        if !command.is_plain() {
            return count;
        }
        count += 1;
    }
    count
}
