ghost use Rattle.std.specs.Prelude.{◌≡◌, ◌⊎◌, ◌++◌, ◌∷◌, [], ◌^◌, ◌≤◌, ℕ, List, true, false, not, length, IsTrue, OnOk, IfErr};
ghost use Rattle.std.specs.List.{list_any};
ghost use Rattle.pf_journal.specs.Batches.{has_room};
ghost use Rattle.pf_journal.specs.Lines.{is_text, journal_of, records_of, texts_of};
ghost use Rattle.pf_journal.specs.Texts.{whole_lines};
ghost use Rattle.pf_journal.specs.Crash.{IsAdded, IsBeforeOrAfter, IsMixing, IsOpenable, IsWithFront};
ghost use Rattle.pf_journal.specs.Kept.{HasCause, HasFailed, IsKept, IsTooLong, disk_of};
ghost use Rattle.pf_journal.specs.declared.journal_error.JournalError.TheVariants.{OutOfMemory};

use crate::batch::Batch;
use crate::journal_error::JournalError;
use crate::lines::{first_line, gated_lines};
use crate::steps::add;
use sqlite_disk::Disk;
use std::alloc::Global;

/// The bytes that a journal has at most before a batch is put.
const MOST_BYTES: usize = 1 << 60;

/// A journal at rest: a file that ends with a shut gate, after which lines are added.
#[derive(Drop)]
pub struct Journal<D: Disk> {
    pub(crate) disk: D,
    /// Where the shut gate is.
    pub(crate) size: usize,
}

impl<D: Disk> Journal<D> {
    /// Adds the lines of a batch. At `Ok` they are acknowledged: from then on each crash leaves a file that has them. At
    /// `File` open the file again.
    pub fn put(&mut self, batch: &Batch) -> Result<(), JournalError>
        requires { IsKept D.seen D.may_leave D.is_usable D.is_clean self.old }
        ensures kept { OnOk result (IsKept D.seen D.may_leave D.is_usable D.is_clean self.new) }
        ensures acknowledged { OnOk result (IsTrue (D.is_clean (disk_of self.old))
            → records_of (D.seen (disk_of self.new)) ≡ records_of (D.seen (disk_of self.old)) ++ batch.now) }

        // What a crash may leave has all of the batch or none of it. A crash within the call is read as calls that fail from there on.
        ensures crash { IsTrue (D.is_clean (disk_of self.old)) → (c : List ℕ) → D.may_leave (disk_of self.new) c
            → IsBeforeOrAfter (records_of (D.seen (disk_of self.old))) batch.now c }

        // It opens again, where each byte of a torn write is as it was or as it was written.
        ensures opens { IsMixing D.is_mixing → IsTrue (D.is_clean (disk_of self.old)) → (c : List ℕ) → D.may_leave (disk_of self.new) c → IsOpenable c }
        ensures calm { D.is_clean (disk_of self.new) ≡ D.is_clean (disk_of self.old) }

        // It doesn't give up by itself.
        ensures failed { IfErr result (λ error. IsTooLong D.seen D.is_clean error (disk_of self.new)
            ⊎ HasFailed D.faults error (disk_of self.old) (disk_of self.new)) }
        ensures faults { OnOk result (D.faults (disk_of self.new) ≡ D.faults (disk_of self.old)) }
    {
        self.put_gated(batch.bytes())
    }

    /// Adds the lines of a text, each of which ends with an LF, in batches as large as they may be, for which `batch` is the room; what
    /// stands after the last of them is left out. At `Ok` all are acknowledged. At `Err` the journal has a front of them, and each
    /// crash leaves one; open the file again.
    ///
    /// # Errors
    ///
    /// Those of `put`, and `LongLine` where a line has more than 65,536 bytes. It takes no memory.
    pub fn put_lines(&mut self, batch: &mut Batch, text: &[u8]) -> Result<(), JournalError>
        requires { IsKept D.seen D.may_leave D.is_usable D.is_clean self.old }
        ensures kept { OnOk result (IsKept D.seen D.may_leave D.is_usable D.is_clean self.new) }
        ensures acknowledged { OnOk result (IsTrue (D.is_clean (disk_of self.old))
            → records_of (D.seen (disk_of self.new)) ≡ records_of (D.seen (disk_of self.old)) ++ whole_lines text.now) }
        ensures crash { IsTrue (D.is_clean (disk_of self.old)) → (c : List ℕ) → D.may_leave (disk_of self.new) c
            → IsWithFront (records_of (D.seen (disk_of self.old))) (whole_lines text.now) c }
        ensures opens { IsMixing D.is_mixing → IsTrue (D.is_clean (disk_of self.old)) → (c : List ℕ) → D.may_leave (disk_of self.new) c → IsOpenable c }
        ensures calm { D.is_clean (disk_of self.new) ≡ D.is_clean (disk_of self.old) }
        ensures failed { IfErr result (λ error. HasCause D.seen D.faults D.is_clean (whole_lines text.now) error (disk_of self.old) (disk_of self.new)) }
    {
        batch.clear();
        let mut rest = text;
        while let Some((line, after)) = first_line(rest) {
            match self.add_line(batch, line) {
                Ok(()) => rest = after,
                Err(error) => return Err(error),
            }
        }
        self.put(batch)
    }

    /// Adds the lines of a text to a journal without records, as `put_lines` does, but as one batch of any size: what a crash may
    /// leave has all of them or none.
    ///
    /// # Errors
    ///
    /// Those of `put_lines`, and `OutOfMemory` where memory is refused.
    pub fn put_whole(&mut self, alloc: Global, text: &[u8]) -> Result<(), JournalError>
        requires kept { IsKept D.seen D.may_leave D.is_usable D.is_clean self.old }
        requires none { IsTrue (D.is_clean (disk_of self.old)) → records_of (D.seen (disk_of self.old)) ≡ [] }
        ensures kept { OnOk result (IsKept D.seen D.may_leave D.is_usable D.is_clean self.new) }
        ensures acknowledged { OnOk result (IsTrue (D.is_clean (disk_of self.old)) → records_of (D.seen (disk_of self.new)) ≡ whole_lines text.now) }
        ensures short { OnOk result (list_any (λ line. not (has_room [] line)) (whole_lines text.now) ≡ false) }
        ensures crash { IsTrue (D.is_clean (disk_of self.old)) → (c : List ℕ) → D.may_leave (disk_of self.new) c → IsBeforeOrAfter [] (whole_lines text.now) c }
        ensures opens { IsMixing D.is_mixing → IsTrue (D.is_clean (disk_of self.old)) → (c : List ℕ) → D.may_leave (disk_of self.new) c → IsOpenable c }
        ensures calm { D.is_clean (disk_of self.new) ≡ D.is_clean (disk_of self.old) }
        ensures failed { IfErr result (λ error. (error ≡ OutOfMemory)
            ⊎ HasCause D.seen D.faults D.is_clean (whole_lines text.now) error (disk_of self.old) (disk_of self.new)) }
        ensures faults { OnOk result (D.faults (disk_of self.new) ≡ D.faults (disk_of self.old)) }
    {
        let bytes = gated_lines(alloc, text)?;
        self.put_gated(&bytes)
    }

    /// Adds lines with open gates, after which a shut gate stands.
    fn put_gated(&mut self, bytes: &[u8]) -> Result<(), JournalError>
        requires kept { IsKept D.seen D.may_leave D.is_usable D.is_clean self.old }
        requires gated { bytes.now ≡ journal_of (texts_of bytes.now) }
        ensures kept { OnOk result (IsKept D.seen D.may_leave D.is_usable D.is_clean self.new) }
        ensures acknowledged { OnOk result (IsTrue (D.is_clean (disk_of self.old))
            → records_of (D.seen (disk_of self.new)) ≡ records_of (D.seen (disk_of self.old)) ++ texts_of bytes.now) }
        ensures crash { IsTrue (D.is_clean (disk_of self.old)) → (c : List ℕ) → D.may_leave (disk_of self.new) c
            → IsBeforeOrAfter (records_of (D.seen (disk_of self.old))) (texts_of bytes.now) c }
        ensures opens { IsMixing D.is_mixing → IsTrue (D.is_clean (disk_of self.old))
            → (records_of (D.seen (disk_of self.old)) ≡ []) ⊎ (length bytes.now ≤ 65539)
            → (c : List ℕ) → D.may_leave (disk_of self.new) c → IsOpenable c }
        ensures calm { D.is_clean (disk_of self.new) ≡ D.is_clean (disk_of self.old) }
        ensures failed { IfErr result (λ error. IsTooLong D.seen D.is_clean error (disk_of self.new)
            ⊎ HasFailed D.faults error (disk_of self.old) (disk_of self.new)) }
        ensures faults { OnOk result (D.faults (disk_of self.new) ≡ D.faults (disk_of self.old)) }
    {
        if self.size >= MOST_BYTES {
            return Err(JournalError::TooLong);
        }
        if bytes.len() <= 1 {
            return Ok(());
        }
        let added = &bytes[1..];
        add(&mut self.disk, self.size, added)?;
        self.size += added.len();
        Ok(())
    }

    /// Adds a line to a batch, which is put first, and then emptied, where it has no room.
    fn add_line(&mut self, batch: &mut Batch, line: &[u8]) -> Result<(), JournalError>
        requires kept { IsKept D.seen D.may_leave D.is_usable D.is_clean self.old }
        requires line { is_text line.now ≡ true }
        ensures kept { OnOk result (IsKept D.seen D.may_leave D.is_usable D.is_clean self.new) }
        ensures added { OnOk result (IsAdded (IsTrue (D.is_clean (disk_of self.old))) (records_of (D.seen (disk_of self.old))) batch.old line.now
            (records_of (D.seen (disk_of self.new))) batch.new) }
        ensures crash { IsTrue (D.is_clean (disk_of self.old)) → (c : List ℕ) → D.may_leave (disk_of self.new) c
            → IsBeforeOrAfter (records_of (D.seen (disk_of self.old))) batch.old c }
        ensures opens { IsMixing D.is_mixing → IsTrue (D.is_clean (disk_of self.old)) → (c : List ℕ) → D.may_leave (disk_of self.new) c → IsOpenable c }
        ensures calm { D.is_clean (disk_of self.new) ≡ D.is_clean (disk_of self.old) }
        ensures failed { IfErr result (λ error. HasCause D.seen D.faults D.is_clean (line.now ∷ []) error (disk_of self.old) (disk_of self.new)) }
        ensures faults { OnOk result (D.faults (disk_of self.new) ≡ D.faults (disk_of self.old)) }
    {
        if !batch.has_room(line) {
            self.put(batch)?;
            batch.clear();
        }
        if !batch.has_room(line) {
            return Err(JournalError::LongLine);
        }
        batch.push(line);
        Ok(())
    }

    /// Gives the file back.
    pub fn into_disk(self) -> D
        ensures { result ≡ disk_of self }
    {
        let Journal { disk, .. } = self;
        disk
    }
}
