ghost use Rattle.std.specs.Prelude.{◌≡◌, replicate, OnOk};
ghost use Rattle.pf_desk.specs.declared.command.Command.TheVariants.{Step};
ghost use Rattle.pf_desk.specs.Desk.{AnswersAll};
ghost use Rattle.pf_script_desk.specs.Carrying.{script_caller};

use pf_desk::command::Command;
use pf_desk::desk::Desk;
use pf_desk::fault::OpenFault;
use pf_desk::reply::Reply;
use pf_order::meter::Meter;
use pf_scenario::settings::Settings;
use pf_script::line::Line;
use std::alloc::{AllocError, Global};
use std::marker::Model;

// All commands of a script come from the one caller.
const CALLER: u32 = 0;

/// A desk and edits that wait. Edits that follow one another wait until a step or the end of a script, and are then answered
/// together, so that the slots that they touch are replayed once. After an error nothing more may be asked of it.
#[derive(Drop)]
pub struct CarryingDesk {
    desk: Desk,
    meter: Meter,
    waiting: Vec<Command>,
}

impl Model for CarryingDesk {
    ghost use Rattle.pf_script_desk.specs.Carrying.{Carrying};

    ghost Value = { Carrying };

    ghost view = { λ c. record { desk = c.desk; waiting = c.waiting.items } };
}

impl CarryingDesk {
    ghost use Rattle.std.specs.Prelude.{◌≡◌, ◌≤◌, [], IfOk, OnOk};
    ghost use Rattle.pf_scenario.specs.Limits.{largest_distance};
    ghost use Rattle.pf_script_desk.specs.Asked.{commands_of};
    ghost use Rattle.pf_desk.specs.Desk.{AnswersAll};
    ghost use Rattle.pf_script_desk.specs.Carrying.{HasAnswered, HasTaken, opened, script_caller};

    /// A desk with these settings that was asked nothing yet. `every` is the distance of checkpoints in slots.
    ///
    /// # Errors
    ///
    /// Where memory is refused.
    pub fn open(alloc: Global, settings: Settings, every: u64) -> Result<Self, AllocError>
        requires some { 1 ≤ every }
        requires within { every ≤ largest_distance }
        ensures { IfOk result (λ c. c ≡ opened settings every c.desk.spare) }
    {
        let desk = match Desk::open(alloc, settings, every) {
            Ok(desk) => desk,
            Err(OpenFault::BadSettings) => unreachable!(),
            Err(OpenFault::NoMemory) => return Err(AllocError),
        };
        Ok(CarryingDesk {
            desk,
            meter: Meter::new(),
            waiting: Vec::new(alloc),
        })
    }

    /// Lets an edit wait after the others, or answers those that wait and takes the steps.
    ///
    /// # Errors
    ///
    /// Where memory is refused.
    pub fn take(&mut self, line: Line) -> Result<(), AllocError>
        ensures { OnOk result (HasTaken (commands_of line) self.old self.new) }
    {
        match line {
            Line::Edit { change, strict } => {
                self.waiting.push(Command::Edit { change, strict })?;
                Ok(())
            }
            Line::Steps(count) => {
                self.answer_waiting()?;
                take_steps(&mut self.desk, &mut self.meter, count)
            }
        }
    }

    /// Answers the commands that wait, with one replay of the slots that plain edits touch that follow one another.
    ///
    /// # Errors
    ///
    /// Where memory is refused.
    pub fn answer_waiting(&mut self) -> Result<(), AllocError>
        ensures answered { OnOk result (AnswersAll script_caller self.old.waiting self.old.desk self.new.desk) }
        ensures none { OnOk result (self.new.waiting ≡ []) }
    {
        self.desk.apply_all(&mut self.meter, CALLER, &self.waiting)?;
        self.waiting.clear();
        Ok(())
    }

    /// Answers the commands that wait, and then this one.
    ///
    /// # Errors
    ///
    /// Where memory is refused.
    pub fn answer(&mut self, command: Command) -> Result<Reply, AllocError>
        ensures { IfOk result (λ reply. HasAnswered command self.old reply self.new) }
    {
        self.answer_waiting()?;
        self.desk.apply(&mut self.meter, CALLER, command)
    }

    /// The desk, which has not answered the commands that wait.
    pub fn desk(&self) -> &Desk
        ensures { result.now ≡ self.now.desk }
    {
        &self.desk
    }

    /// The desk, where no command waits.
    pub fn into_desk(self) -> Desk
        requires { self.waiting ≡ [] }
        ensures { result ≡ self.desk }
    {
        self.desk
    }
}

/// Takes so many steps.
fn take_steps(desk: &mut Desk, meter: &mut Meter, count: u64) -> Result<(), AllocError>
    ensures { OnOk result (AnswersAll script_caller (replicate count Step) desk.old desk.new) }
{
    for _turn in 0..count {
        desk.step(meter, CALLER)?;
    }
    Ok(())
}
