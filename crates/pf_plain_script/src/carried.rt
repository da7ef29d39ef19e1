ghost use Rattle.std.specs.Prelude.{◌≡◌, OnOk};
ghost use Rattle.std.specs.List.{flat_map};
ghost use Rattle.pf_script_desk.specs.Asked.{commands_of};
ghost use Rattle.pf_plain_script.specs.Carried.{number_in, state_behind, state_to_be};

use pf_desk::command::Command;
use pf_desk::reply::Reply;
use pf_scenario::settings::Settings;
use pf_script::line::Line;
use pf_script_desk::carrying_desk::CarryingDesk;
use std::alloc::{AllocError, Global};
use std::marker::Model;

// How far the checkpoints of the desk lie apart, in slots. No reply rests on it.
const DISTANCE: u64 = 64;

/// A desk, and lines that wait to be carried out on it, since no number of theirs was asked for yet. Contracts see the state
/// of the desk once they are.
#[derive(Drop)]
pub(crate) struct Carried {
    desk: CarryingDesk,
    waiting: Vec<Line>,
}

impl Model for Carried {
    ghost use Rattle.std.specs.List.{flat_map};
    ghost use Rattle.pf_desk.specs.Machine.{State};
    ghost use Rattle.pf_script_desk.specs.Asked.{commands_of};
    ghost use Rattle.pf_plain_script.specs.Carried.{state_behind, state_to_be};

    ghost Value = { State };

    ghost view = { λ c. state_behind (state_to_be c.desk) (flat_map commands_of c.waiting.items) };
}

impl Carried {
    ghost use Rattle.std.specs.Prelude.{◌≡◌, IfOk, OnOk};
    ghost use Rattle.pf_desk.specs.Machine.{opening_state};
    ghost use Rattle.pf_plain_script.specs.Carried.{number_given, state_behind_line};

    /// A desk with these settings.
    pub(crate) fn open(alloc: Global, settings: Settings) -> Result<Self, AllocError>
        ensures { IfOk result (λ c. c ≡ opening_state settings) }
    {
        let desk = CarryingDesk::open(alloc, settings, DISTANCE)?;
        Ok(Carried {
            desk,
            waiting: Vec::new(alloc),
        })
    }

    /// Has a line wait, none of whose numbers is asked for.
    pub(crate) fn wait(&mut self, line: Line) -> Result<(), AllocError>
        ensures { OnOk result (self.new ≡ state_behind_line self.old line) }
    {
        self.waiting.push(line)?;
        Ok(())
    }

    /// Carries out what waits and then a line, and gives the number of its event: 0 where it was refused.
    pub(crate) fn number(&mut self, line: Line) -> Result<u64, AllocError>
        ensures number { IfOk result (λ number. number ≡ number_given self.old line) }
        ensures state { OnOk result (self.new ≡ state_behind_line self.old line) }
    {
        take_lines(&mut self.desk, &self.waiting)?;
        self.waiting.clear();
        let Line::Edit { change, strict } = line else {
            self.waiting.push(line)?;
            return Ok(0);
        };
        let reply = self.desk.answer(Command::Edit { change, strict })?;
        Ok(number_in(&reply))
    }
}

/// The number of the event in a reply; 0 where there is none.
fn number_in(reply: &Reply) -> u64
    ensures { result ≡ number_in reply.now }
{
    match reply {
        Reply::Edited { id } => *id,
        Reply::Stepped { .. } | Reply::Refused(_) => 0,
    }
}

/// Carries lines out.
fn take_lines(desk: &mut CarryingDesk, lines: &[Line]) -> Result<(), AllocError>
    ensures { OnOk result (state_to_be desk.new ≡ state_behind (state_to_be desk.old) (flat_map commands_of lines.now)) }
{
    for line in lines {
        desk.take(*line)?;
    }
    Ok(())
}
