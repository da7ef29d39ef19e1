ghost use Rattle.std.specs.Prelude.{◌≡◌, ◌⊎◌, ◌++◌, [], ℕ, List, IsTrue, IfErr, IfOk};
ghost use Rattle.pf_journal.specs.Crash.{IsBeforeOrAfter, IsMixing, IsOpenable};
ghost use Rattle.pf_journal.specs.Kept.{HasCause, IsFound, IsKept, IsUnkept, disk_of, found_bytes, found_disk};
ghost use Rattle.pf_journal.specs.Lines.{records_of};
ghost use Rattle.pf_journal.specs.declared.journal_error.JournalError.TheVariants.{OutOfMemory};
ghost use Rattle.pf_journal.specs.Texts.{whole_lines};
ghost use Rattle.pf_journal.specs.Recorder.Recording.{BeginsWith, added_to, records_in};

use crate::batch::Batch;
use crate::failed::Failed;
use crate::found::Found;
use crate::journal::Journal;
use crate::journal_error::JournalError;
use crate::recorder::recorder::Recorder;
use pf_stream::dialogue::scripted::Scripted;
use sqlite_disk::Disk;
use std::alloc::Global;

impl<S: Scripted + Drop, D: Disk + Drop> Recorder<S, D> {
    /// Begins to keep what is answered in a file as it was found. A file without records gets those of the script so far; one that has
    /// records stays with them, and who answers has carried them out.
    ///
    /// # Errors
    ///
    /// Those of `Found::open` and `Journal::put_whole`, and `OutOfMemory` where memory is refused, with the file. A crash leaves the records that it had, or where it had none all of
    /// those of the script or none.
    pub fn open(alloc: Global, found: Found<D>, machine: S) -> Result<Self, Failed<D>>
        requires { IsFound D.Disk.seen D.Disk.may_leave D.Disk.is_usable D.Disk.is_clean found }
        ensures begins { IfOk result (λ r. BeginsWith D.Disk.seen D.Disk.may_leave D.Disk.is_clean S.script machine (found_disk found) (found_bytes found) r) }
        ensures openable { IfOk result (λ r. IsOpenable (found_bytes found)) }
        ensures crash { IfErr result (λ failed. IsTrue (D.Disk.is_clean (found_disk found)) → (c : List ℕ) → D.Disk.may_leave failed.disk c
            → IsBeforeOrAfter (records_of (found_bytes found)) (added_to (records_of (found_bytes found)) (S.script machine)) c) }
        ensures opens { IfErr result (λ failed. IsMixing D.Disk.is_mixing → IsOpenable (found_bytes found) → IsTrue (D.Disk.is_clean (found_disk found))
            → (c : List ℕ) → D.Disk.may_leave failed.disk c → IsOpenable c) }

        // It doesn't give up by itself.
        ensures failed { IfErr result (λ failed. IsUnkept D.Disk.seen D.Disk.faults D.Disk.is_clean (found_bytes found)
            (added_to (records_of (found_bytes found)) (S.script machine)) failed.error (found_disk found) failed.disk) }
    {
        let batch = match Batch::new(alloc) {
            Ok(batch) => batch,
            Err(_) => {
                let error = JournalError::OutOfMemory;
                let disk = found.into_disk();
                return Err(Failed { error, disk });
            }
        };
        match open_with(alloc, found, machine.script()) {
            Ok(journal) => Ok(Recorder::over(alloc, machine, journal, batch)),
            Err(failed) => Err(failed),
        }
    }
}

/// Opens a file as it was found, and gives it the records of a script where it has none.
fn open_with<D: Disk + Drop>(
    alloc: Global,
    found: Found<D>,
    script: &[u8],
) -> Result<Journal<D>, Failed<D>>
    requires { IsFound D.Disk.seen D.Disk.may_leave D.Disk.is_usable D.Disk.is_clean found }
    ensures kept { IfOk result (λ j. IsKept D.Disk.seen D.Disk.may_leave D.Disk.is_usable D.Disk.is_clean j) }
    ensures calm { IfOk result (λ j. D.Disk.is_clean (disk_of j) ≡ D.Disk.is_clean (found_disk found)) }
    ensures put { IfOk result (λ j. IsTrue (D.Disk.is_clean (found_disk found))
        → records_of (D.Disk.seen (disk_of j)) ≡ records_of (found_bytes found) ++ added_to (records_of (found_bytes found)) script.now) }
    ensures openable { IfOk result (λ j. IsOpenable (found_bytes found)) }
    ensures crash { IfErr result (λ failed. IsTrue (D.Disk.is_clean (found_disk found)) → (c : List ℕ) → D.Disk.may_leave failed.disk c
        → IsBeforeOrAfter (records_of (found_bytes found)) (added_to (records_of (found_bytes found)) script.now) c) }
    ensures opens { IfErr result (λ failed. IsMixing D.Disk.is_mixing → IsOpenable (found_bytes found) → IsTrue (D.Disk.is_clean (found_disk found))
        → (c : List ℕ) → D.Disk.may_leave failed.disk c → IsOpenable c) }
    ensures failed { IfErr result (λ failed. IsUnkept D.Disk.seen D.Disk.faults D.Disk.is_clean (found_bytes found)
        (added_to (records_of (found_bytes found)) script.now) failed.error (found_disk found) failed.disk) }
{
    let begins = found.records() == 0;
    let journal = match found.open() {
        Ok(journal) => journal,
        Err(failed) => return Err(failed),
    };
    if begins {
        return put_all(alloc, journal, behind_heading(script));
    }
    Ok(journal)
}

/// Adds the lines of a text to a journal without records, all of them or none.
///
/// # Errors
///
/// Those of `Journal::put_whole`, with the file.
fn put_all<D: Disk + Drop>(
    alloc: Global,
    mut journal: Journal<D>,
    text: &[u8],
) -> Result<Journal<D>, Failed<D>>
    requires kept { IsKept D.Disk.seen D.Disk.may_leave D.Disk.is_usable D.Disk.is_clean journal }
    requires none { IsTrue (D.Disk.is_clean (disk_of journal)) → records_of (D.Disk.seen (disk_of journal)) ≡ [] }
    ensures kept { IfOk result (λ j. IsKept D.Disk.seen D.Disk.may_leave D.Disk.is_usable D.Disk.is_clean j) }
    ensures calm { IfOk result (λ j. D.Disk.is_clean (disk_of j) ≡ D.Disk.is_clean (disk_of journal)) }
    ensures put { IfOk result (λ j. IsTrue (D.Disk.is_clean (disk_of journal)) → records_of (D.Disk.seen (disk_of j)) ≡ whole_lines text.now) }
    ensures crash { IfErr result (λ failed. IsTrue (D.Disk.is_clean (disk_of journal)) → (c : List ℕ) → D.Disk.may_leave failed.disk c
        → IsBeforeOrAfter [] (whole_lines text.now) c) }
    ensures opens { IfErr result (λ failed. IsMixing D.Disk.is_mixing → IsTrue (D.Disk.is_clean (disk_of journal))
        → (c : List ℕ) → D.Disk.may_leave failed.disk c → IsOpenable c) }
    ensures failed { IfErr result (λ failed. (failed.error ≡ OutOfMemory)
        ⊎ HasCause D.Disk.seen D.Disk.faults D.Disk.is_clean (whole_lines text.now) failed.error (disk_of journal) failed.disk) }
{
    match journal.put_whole(alloc, text) {
        Ok(()) => Ok(journal),
        Err(error) => {
            let disk = journal.into_disk();
            Err(Failed { error, disk })
        }
    }
}

/// The lines of a script after its first one.
fn behind_heading(script: &[u8]) -> &[u8]
    ensures { whole_lines result.now ≡ records_in script.now }
{
    let mut rest = script;
    while let [byte, after @ ..] = rest {
        rest = after;
        if *byte == b'\n' {
            return rest;
        }
    }
    rest
}
