use pf_desk::command::Command;
use pf_desk::desk::Desk;
use pf_desk::fault::OpenFault;
use pf_order::meter::Meter;
use pf_report::reply::push_reply;
use pf_scenario::change::Change;
use pf_scenario::settings::Settings;
use std::alloc::{AllocError, Global};
use std::marker::Model;

// All commands of a script come from the one caller.
const CALLER: u32 = 0;

/// The edits of a batch: so many replays of the past become one, and so many commands are in memory.
const MOST_EDITS: usize = 1_024;

/// A desk and plain edits that wait. An edit of the past waits, and so do the plain edits after it, until another command
/// or the end of the script needs what they make: they are then answered together, with one replay of the slots that they
/// touch. The lines of its replies are taken one after another. After an error nothing more may be asked of it.
#[derive(Drop)]
pub(crate) struct BatchingDesk {
    desk: Desk,
    meter: Meter,
    waiting: Vec<Command>,
    // How many entries of the history have had their line taken.
    shown: usize,
}

impl Model for BatchingDesk {
    ghost use Rattle.pf_replies.specs.Batched.{Batched};

    ghost Value = { Batched };

    ghost use Rattle.pf_replies.specs.BatchedDesk.{AreBatched, batched_by};

    ghost view = { batched_by };

    ghost invariant = { AreBatched };
}

impl BatchingDesk {
    ghost use Rattle.std.specs.Prelude.{◌≡◌, ◌≤◌, ◌++◌, [], ◌∷◌, true, false, length, IfOk, OnOk, IsTrue};
    ghost use Rattle.pf_desk.specs.Plain.{IsPlain};
    ghost use Rattle.pf_scenario.specs.Scenario.{slot_touched};
    ghost use Rattle.pf_scenario.specs.Limits.{largest_distance};
    ghost use Rattle.pf_replies.specs.Batched.{HasAnswered, HasTaken, ShowsLine, is_before};
    ghost use Rattle.pf_replies.specs.Course.{course_at, opening_course};

    /// A desk with these settings that was asked nothing yet. `every` is the distance of checkpoints in slots.
    pub(crate) fn open(alloc: Global, settings: Settings, every: u64) -> Result<Self, AllocError>
        requires some { 1 ≤ every }
        requires within { every ≤ largest_distance }
        ensures { IfOk result (λ d. d ≡ record { answered = opening_course every settings; waiting = []; unshown = [] }) }
    {
        let desk = match Desk::open(alloc, settings, every) {
            Ok(desk) => desk,
            Err(OpenFault::BadSettings) => unreachable!(),
            Err(OpenFault::NoMemory) => return Err(AllocError),
        };
        Ok(BatchingDesk {
            desk,
            meter: Meter::new(),
            waiting: Vec::new(alloc),
            shown: 0,
        })
    }

    /// Answers a command, or lets it wait.
    pub(crate) fn take(&mut self, command: Command) -> Result<(), AllocError>
        ensures { OnOk result (HasTaken command self.old self.new) }
    {
        if self.may_wait(&command) {
            return self.wait(command);
        }
        self.answer_waiting()?;
        self.answer(command)
    }

    /// Whether a command is a plain edit that touches the past, or that stands after one that waits.
    fn may_wait(&self, command: &Command) -> bool
        ensures { IsTrue result → IsPlain command.now }
    {
        match command {
            Command::Edit {
                change,
                strict: false,
            } => !self.waiting.is_empty() || self.is_past(change),
            _ => false,
        }
    }

    /// Whether a change touches a slot that was stepped.
    fn is_past(&self, change: &Change) -> bool
        ensures { result ≡ is_before self.now.answered.state.now (slot_touched self.now.answered.state.plan change.now) }
    {
        match self.desk.scenario().first_slot(change) {
            Some(slot) => slot < self.desk.now(),
            None => false,
        }
    }

    /// Lets an edit wait. Where as many wait as may, they are answered.
    fn wait(&mut self, edit: Command) -> Result<(), AllocError>
        requires { IsPlain edit }
        ensures { OnOk result (HasTaken edit self.old self.new) }
    {
        self.waiting.push(edit)?;
        if self.waiting.len() < MOST_EDITS {
            return Ok(());
        }
        self.answer_waiting()?;
        Ok(())
    }

    /// Answers a command where none waits.
    fn answer(&mut self, command: Command) -> Result<(), AllocError>
        requires { self.old.waiting ≡ [] }
        ensures { OnOk result (HasTaken command self.old self.new) }
    {
        match command {
            Command::Step => {
                self.desk.step(&mut self.meter, CALLER)?;
                Ok(())
            }
            Command::Edit { .. } => {
                self.desk.apply(&mut self.meter, CALLER, command)?;
                Ok(())
            }
        }
    }

    /// Answers the commands that wait, with one replay of the slots that they touch, and says whether there were any.
    pub(crate) fn answer_waiting(&mut self) -> Result<bool, AllocError>
        ensures answered { OnOk result (HasAnswered self.old self.new) }
        ensures some { IfOk result (λ some. some ≡ true → 1 ≤ length self.old.waiting) }
        ensures none { IfOk result (λ some. some ≡ false → self.new ≡ self.old) }
    {
        if self.waiting.is_empty() {
            return Ok(false);
        }
        self.desk.apply_all(&mut self.meter, CALLER, &self.waiting)?;
        self.waiting.clear();
        Ok(true)
    }

    /// Adds the next line to a text, and says whether there was one.
    pub(crate) fn show(&mut self, text: &mut Vec<u8>) -> Result<bool, AllocError>
        ensures { IfOk result (λ some. ShowsLine some text.old.items text.new.items self.old self.new) }
    {
        let history = self.desk.history();
        if self.shown == history.len() {
            return Ok(false);
        }
        let Some(entry) = history.entry(self.shown) else {
            unreachable!();
        };
        push_reply(text, entry.reply)?;
        self.shown += 1;
        Ok(true)
    }

    /// The desk, where no command waits.
    pub(crate) fn into_desk(self) -> Desk
        requires { self.waiting ≡ [] }
        ensures { course_at result ≡ self.answered }
    {
        self.desk
    }
}
