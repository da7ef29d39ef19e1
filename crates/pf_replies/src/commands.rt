use csv::ByteRecord;
use pf_desk::command::Command;
use pf_script::fault::ScriptFault;
use pf_script::line::Line;
use pf_script::line_reader::LineReader;
use std::alloc::AllocError;
use std::marker::Model;

/// What a script asks for after its settings, command by command, up to its first fault.
#[derive(Drop)]
pub(crate) struct Commands<'a> {
    lines: LineReader<'a>,
    row: ByteRecord,
    // The steps of the last line that are still to come.
    steps: u64,
    // Where the end was read: the number of the bad record there, if there is one.
    end: Option<Option<u64>>,
}

impl<'a> Model for Commands<'a> {
    ghost use Rattle.pf_replies.specs.Commands.{CommandsLeft};

    ghost Value = { CommandsLeft };

    ghost use Rattle.pf_replies.specs.CommandsRead.{commands_left};

    ghost view = { commands_left };
}

impl<'a> Commands<'a> {
    ghost use Rattle.std.specs.Prelude.{◌≡◌, true, false, IfOk};
    ghost use Rattle.pf_script_desk.specs.Asked.{commands_in};
    ghost use Rattle.pf_replies.specs.Commands.{TakesCommand};
    ghost use Rattle.pf_replies.specs.Course.{fault_number};

    /// What these lines ask for. Each is read into `row`.
    pub(crate) fn new(lines: LineReader<'a>, row: ByteRecord) -> Self
        ensures { result ≡ record { commands = commands_in lines.entry.lines; fault = fault_number lines.entry.fault; ended = false } }
    {
        Commands {
            lines,
            row,
            steps: 0,
            end: None,
        }
    }

    /// The next command; `None` where there is none before the end.
    ///
    /// # Errors
    ///
    /// Where memory is refused. Nothing is then promised of a further call.
    pub(crate) fn next(&mut self) -> Result<Option<Command>, AllocError>
        ensures { IfOk result (λ next. TakesCommand next self.old self.new) }
    {
        'lines: while self.steps == 0 {
            if self.end.is_some() {
                return Ok(None);
            }
            match self.lines.next(&mut self.row) {
                Ok(Some(told)) => match told.asks {
                    Line::Edit { change, strict } => {
                        return Ok(Some(Command::Edit { change, strict }));
                    }
                    Line::Steps(count) => self.steps = count,
                },
                Ok(None) => self.end = Some(None),
                Err(ScriptFault::Bad(bad)) => self.end = Some(Some(bad.number)),
                Err(ScriptFault::Missing(bad)) => self.end = Some(Some(bad.number)),
                Err(ScriptFault::Memory) => return Err(AllocError),
            }
        }
        self.steps -= 1;
        Ok(Some(Command::Step))
    }

    /// The number of the bad record that ended them, if one did, where their end was read.
    pub(crate) fn bad_record(&self) -> Option<u64>
        requires { self.now.ended ≡ true }
        ensures { result ≡ self.now.fault }
    {
        match self.end {
            Some(bad) => bad,
            None => unreachable!(),
        }
    }
}
