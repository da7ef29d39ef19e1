use crate::batching_desk::BatchingDesk;
use crate::commands::Commands;
use csv::ByteRecord;
use pf_desk::desk::Desk;
use pf_script::opened::OpenedScript;
use pf_text::pieces::{LONG_PIECE, Pieces};
use pf_vocabulary::fault::fault::Fault;
use pf_vocabulary::options::format::Format;
use std::alloc::{AllocError, Global};
use std::marker::Model;

// The bytes of a piece after its greatest length: room for a last line.
const ROOM: usize = 4_096;

/// The replies to a script, which is carried out on the way: a line for the settings and one for each command, where the
/// format has replies. After an error nothing more may be asked of them.
#[derive(Drop)]
pub struct ScriptReplies<'a> {
    commands: Commands<'a>,
    desk: BatchingDesk,
    format: Format,
    // Whether the line for the settings was taken.
    begun: bool,
}

impl<'a> Model for ScriptReplies<'a> {
    ghost use Rattle.pf_replies.specs.Carried.{RepliesLeft};

    ghost Value = { RepliesLeft };

    ghost view = { λ r. record { commands = r.commands; desk = r.desk; format = r.format; begun = r.begun } };
}

impl<'a> ScriptReplies<'a> {
    ghost use Rattle.std.specs.Prelude.{◌≡◌, ◌++◌, [], IfOk, OnOk};
    ghost use Rattle.pf_script.specs.Told.{told};
    ghost use Rattle.pf_replies.specs.Carried.{CarriesOn, EndsBy, OpensReplies, ShowsNext, outcome_left, text_left};

    /// The replies to a script of these bytes, none of whose commands was carried out yet.
    ///
    /// # Errors
    ///
    /// `BadRecord` at a bad record up to the settings, and `NoMemory` where memory is refused.
    pub fn open(alloc: Global, bytes: &'a [u8], format: Format) -> Result<Self, Fault>
        ensures { OpensReplies format (told bytes.now) result }
    {
        let mut row = ByteRecord::new(alloc);
        let OpenedScript { opening, lines } = OpenedScript::open(alloc, bytes, &mut row)?;
        Ok(ScriptReplies {
            commands: Commands::new(lines, row),
            desk: BatchingDesk::open(alloc, opening.settings, opening.every)?,
            format,
            begun: false,
        })
    }

    /// Adds lines to a piece until it is long, or there are no more.
    fn fill(&mut self, piece: &mut Vec<u8>) -> Result<(), AllocError>
        ensures text { OnOk result (piece.old.items ++ text_left self.old ≡ piece.new.items ++ text_left self.new) }
        ensures outcome { OnOk result (outcome_left self.new ≡ outcome_left self.old) }
        ensures empty { OnOk result (piece.new.items ≡ [] → text_left self.new ≡ []) }
    {
        'lines: while piece.len() < LONG_PIECE {
            if self.show(piece)? {
                continue 'lines;
            }
            if !self.carry_on()? {
                return Ok(());
            }
        }
        Ok(())
    }

    /// Adds the next line to a piece, where the format has replies, and says whether there was one.
    fn show(&mut self, piece: &mut Vec<u8>) -> Result<bool, AllocError>
        ensures { IfOk result (λ some. ShowsNext some piece.old.items piece.new.items self.old self.new) }
    {
        if !self.format.has_replies() {
            return Ok(false);
        }
        if !self.begun {
            piece.extend_from_slice(b"ready\n")?;
            self.begun = true;
            return Ok(true);
        }
        self.desk.show(piece)
    }

    /// Carries out what the script asks for next, and says whether there was anything.
    fn carry_on(&mut self) -> Result<bool, AllocError>
        ensures { IfOk result (λ some. CarriesOn some self.old self.new) }
    {
        let Some(command) = self.commands.next()? else {
            return self.desk.answer_waiting();
        };
        self.desk.take(command)?;
        Ok(true)
    }

    /// Carries the script out to its end, whatever lines are left, and gives the desk there.
    ///
    /// # Errors
    ///
    /// `BadRecord` where a bad record ends the script, and `NoMemory` where memory is refused.
    pub fn finish(mut self) -> Result<Desk, Fault>
        ensures { EndsBy (outcome_left self.entry) result }
    {
        'rest: while self.carry_on()? {}
        let ScriptReplies { commands, desk, .. } = self;
        match commands.bad_record() {
            Some(number) => Err(Fault::BadRecord(number)),
            None => Ok(desk.into_desk()),
        }
    }
}

impl Pieces for ScriptReplies<'_> {
    ghost use Rattle.std.specs.Prelude.{ℕ, Result};
    ghost use Rattle.pf_replies.specs.Carried.{outcome_left, text_left};
    ghost use Rattle.pf_replies.specs.Course.{ScriptCourse};

    ghost left = { text_left };

    ghost Outcome = { Result ScriptCourse ℕ };

    ghost outcome = { outcome_left };

    fn next_piece(&mut self, alloc: Global) -> Result<Option<Vec<u8>>, AllocError> {
        let mut piece = Vec::with_capacity(alloc, LONG_PIECE + ROOM)?;
        self.fill(&mut piece)?;
        if piece.is_empty() {
            return Ok(None);
        }
        Ok(Some(piece))
    }
}
