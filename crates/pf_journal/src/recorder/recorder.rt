use crate::batch::Batch;
use crate::journal::Journal;
use crate::journal_error::JournalError;
use pf_stream::dialogue::answers::{Answers, Going, Stopped, Unkept};
use pf_stream::dialogue::scripted::Scripted;
use sqlite_disk::Disk;
use std::alloc::Global;
use std::marker::Model;

/// What answers lines, and keeps in a journal what it answered: each line that its script gets is on the disk before the answers of
/// its round are told. Contracts see what answers, the file, the lines that wait for it, and whether it takes no more.
#[derive(Drop)]
pub struct Recorder<S: Scripted, D: Disk> {
    machine: S,
    journal: Journal<D>,
    /// The lines that were answered and are not in the journal yet.
    waiting: Vec<u8>,
    /// The room in which they are put there.
    batch: Batch,
    /// Why the journal takes no more.
    fault: Option<JournalError>,
}

impl<S: Scripted, D: Disk> Model for Recorder<S, D> {
    ghost use Rattle.std.specs.Prelude.{◌≡◌, None};
    ghost use Rattle.pf_journal.specs.Kept.{IsKept, disk_of};
    ghost use Rattle.pf_journal.specs.Recorder.Recording.{Recording};

    ghost Value = { Recording S D };

    ghost view = { λ r. record { machine = r.machine; file = disk_of r.journal; waiting = r.waiting.items; lost = r.fault } };

    ghost invariant = { λ r. r.fault ≡ None → IsKept D.seen D.may_leave D.is_usable D.is_clean r.journal };
}

impl<S: Scripted, D: Disk> Recorder<S, D> {
    ghost use Rattle.std.specs.Prelude.{◌≡◌, [], None};
    ghost use Rattle.pf_journal.specs.Kept.{IsKept, disk_of};

    /// What answers, over a journal that takes more.
    pub(crate) fn over(alloc: Global, machine: S, journal: Journal<D>, batch: Batch) -> Self
        requires { IsKept D.seen D.may_leave D.is_usable D.is_clean journal }
        ensures { result ≡ record { machine = machine; file = disk_of journal; waiting = []; lost = None } }
    {
        Recorder {
            machine,
            journal,
            waiting: Vec::new(alloc),
            batch,
            fault: None,
        }
    }

    /// What answers.
    pub fn machine(&self) -> &S
        ensures { result.now ≡ self.now.machine }
    {
        &self.machine
    }

    /// Why what was answered could not be kept, where it could not.
    pub fn fault(&self) -> Option<JournalError>
        ensures { result ≡ self.now.lost }
    {
        self.fault
    }
}

impl<S: Scripted, D: Disk> Answers for Recorder<S, D> {
    ghost use Rattle.std.specs.Prelude.{◌≡◌, None, OnErr, OnOk};
    ghost use Rattle.pf_journal.specs.Recorder.Recording.{Answers, Keeps, Loses, LosesFor, Stops};

    ghost answers = { λ r line text going t. Answers S.answers S.script r line text going t };

    ghost stops = { λ r t. Stops r t };

    ghost keeps = { λ r t. Keeps D.seen D.may_leave D.is_clean r t };

    ghost loses = { λ r t. Loses D.seen D.may_leave D.is_clean D.is_mixing r t };

    fn take(&mut self, line: &[u8], text: &mut Vec<u8>) -> Result<Going, Stopped> {
        let was = self.machine.script().len();
        let before = text.len();
        let going = self.machine.take(line, text)?;
        let script = self.machine.script();
        if self.waiting.extend_from_slice(&script[was..]).is_err() {
            text.truncate(before);
            return Err(Stopped);
        }
        Ok(going)
    }

    fn keep(&mut self) -> Result<(), Unkept>
        ensures ok { OnOk result (Keeps D.seen D.may_leave D.is_clean self.old self.new) }
        ensures err { OnErr result (Loses D.seen D.may_leave D.is_clean D.is_mixing self.old self.new) }

        // It doesn't give up by itself.
        ensures failed { OnErr result (self.old.lost ≡ None → LosesFor D.seen D.faults D.is_clean self.old self.new) }
    {
        if self.fault.is_some() {
            return Err(Unkept);
        }
        match self.journal.put_lines(&mut self.batch, &self.waiting) {
            Ok(()) => {
                self.waiting.clear();
                Ok(())
            }
            Err(error) => {
                self.fault = Some(error);
                Err(Unkept)
            }
        }
    }
}
