ghost use Rattle.std.specs.Prelude.{◌≡◌, ◌⊎◌, ℕ, List, length, IsTrue, IfOk, IfErr, IsErrAnd, OnOk};
ghost use Rattle.pf_journal.specs.Lines.{damaged_record, state_of, script_of, torn_size, records_of};
ghost use Rattle.pf_journal.specs.Crash.{IsOpenable};
ghost use Rattle.pf_journal.specs.Kept.{IsUnopened, IsUnread, IsSettled, IsKept, IsFound, disk_of, found_disk, found_bytes, refusal_at};
ghost use Rattle.pf_journal.specs.declared.journal_error.JournalError.TheVariants.{Damaged as DamagedAt, NoHeading};
ghost use Rattle.pf_journal.specs.declared.state.State.TheVariants.{Damaged, Other};

use crate::contents::Contents;
use crate::failed::Failed;
use crate::journal::Journal;
use crate::journal_error::JournalError;
use crate::shape::{ends_in, is_end, is_new};
use crate::state::State;
use crate::steps::settle;
use sqlite_disk::Disk;
use std::alloc::Global;

/// A file as it was found. Nothing of it has been written yet.
#[derive(Drop)]
pub struct Found<D: Disk> {
    disk: D,
    contents: Contents,
}

impl<D: Disk + Drop> Found<D> {
    /// Reads a file, once all of it is on the disk.
    ///
    /// # Errors
    ///
    /// `File` where a call of the file failed, and `OutOfMemory` where memory is refused, with the file.
    pub fn read(alloc: Global, disk: D) -> Result<Found<D>, Failed<D>>
        requires { IsTrue (D.Disk.is_usable disk) }
        ensures found { IfOk result (λ found. IsFound D.Disk.seen D.Disk.may_leave D.Disk.is_usable D.Disk.is_clean found) }
        ensures same { IfOk result (λ found. D.Disk.seen (found_disk found) ≡ D.Disk.seen disk) }
        ensures clean { IfOk result (λ found. IsTrue (D.Disk.is_clean (found_disk found)) → IsTrue (D.Disk.is_clean disk)) }
        ensures kept { IfErr result (λ failed. D.Disk.seen failed.disk ≡ D.Disk.seen disk) }

        // It doesn't give up by itself.
        ensures failed { IfErr result (λ failed. IsUnread D.Disk.faults failed.error disk failed.disk) }
        ensures faults { IfOk result (λ found. D.Disk.faults (found_disk found) ≡ D.Disk.faults disk) }
        ensures crash { IfErr result (λ failed. (c : List ℕ) → D.Disk.may_leave failed.disk c → D.Disk.may_leave disk c) }
    {
        let mut disk = disk;
        match read_all(alloc, &mut disk) {
            Ok(bytes) => {
                let contents = Contents::of(bytes);
                Ok(Found { disk, contents })
            }
            Err(error) => Err(Failed { error, disk }),
        }
    }

    /// What the file is.
    pub fn state(&self) -> State
        ensures { result ≡ state_of (found_bytes self.now) }
    {
        if is_new(&self.contents.bytes) {
            State::New
        } else if !self.contents.bytes.starts_with(b" plan,1\n") {
            State::Other
        } else if is_end(&self.contents.bytes, self.contents.size) {
            State::Journal
        } else {
            State::Damaged
        }
    }

    /// The lines that stand in it, as a plan: each begins with a blank, which is its gate. It is empty where
    /// the file is new.
    pub fn script(&self) -> &[u8]
        requires { IsFound D.Disk.seen D.Disk.may_leave D.Disk.is_usable D.Disk.is_clean self.now }
        ensures { result.now ≡ script_of (found_bytes self.now) }
    {
        if is_new(&self.contents.bytes) {
            return &[];
        }
        self.contents.lines()
    }

    /// How many records stand in it, its heading left out.
    #[tactic(auto, using(crate::proofs::Counting::records_counted))]
    pub fn records(&self) -> usize
        requires { IsFound D.Disk.seen D.Disk.may_leave D.Disk.is_usable D.Disk.is_clean self.now }
        ensures { result ≡ length (records_of (found_bytes self.now)) }
    {
        ends_in(self.script()).saturating_sub(1)
    }

    /// The line at which it is damaged, where it is: the one after those that stand, the heading's being the first.
    pub fn damaged_record(&self) -> usize
        requires { IsFound D.Disk.seen D.Disk.may_leave D.Disk.is_usable D.Disk.is_clean self.now }
        ensures { result ≡ damaged_record (found_bytes self.now) }
    {
        ends_in(self.contents.lines()) + 1
    }

    /// How many bytes opening it cuts: those after the gate that ends its lines. Of a new file it is none.
    pub fn torn_bytes(&self) -> usize
        requires { IsFound D.Disk.seen D.Disk.may_leave D.Disk.is_usable D.Disk.is_clean self.now }
        ensures { result ≡ torn_size (found_bytes self.now) }
    {
        if is_new(&self.contents.bytes) {
            return 0;
        }
        self.contents
            .bytes
            .len()
            .saturating_sub(self.contents.size)
            .saturating_sub(1)
    }

    /// Opens the journal: a new file gets its heading, and of a journal what a crash left after its lines is cut. One that is
    /// damaged, and another file, are left as they are.
    ///
    /// # Errors
    ///
    /// `NoHeading` where the file is no journal, `Damaged` where it is damaged, `File` where a call of it failed.
    pub fn open(self) -> Result<Journal<D>, Failed<D>>
        requires { IsFound D.Disk.seen D.Disk.may_leave D.Disk.is_usable D.Disk.is_clean self }
        ensures kept { IfOk result (λ journal. IsKept D.Disk.seen D.Disk.may_leave D.Disk.is_usable D.Disk.is_clean journal) }
        ensures same { IfOk result (λ journal. IsTrue (D.Disk.is_clean (found_disk self))
            → records_of (D.Disk.seen (disk_of journal)) ≡ records_of (D.Disk.seen (found_disk self))) }

        // A crash at any moment leaves the same records, a file that is no journal none at all; and a file that opens again.
        ensures crash { IfOk result (λ journal. IsTrue (D.Disk.is_clean (found_disk self)) → (c : List ℕ)
            → D.Disk.may_leave (disk_of journal) c → records_of c ≡ records_of (D.Disk.seen (found_disk self))) }
        ensures crash_failed { IfErr result (λ failed. IsTrue (D.Disk.is_clean (found_disk self)) → (c : List ℕ)
            → D.Disk.may_leave failed.disk c → records_of c ≡ records_of (D.Disk.seen (found_disk self))) }
        ensures opens { IfOk result (λ journal. IsTrue (D.Disk.is_clean (found_disk self)) → (c : List ℕ)
            → D.Disk.may_leave (disk_of journal) c → IsOpenable c) }
        ensures opens_failed { IfErr result (λ failed. IsOpenable (found_bytes self) → IsTrue (D.Disk.is_clean (found_disk self))
            → (c : List ℕ) → D.Disk.may_leave failed.disk c → IsOpenable c) }
        ensures other { state_of (found_bytes self) ≡ Other → IsErrAnd result (λ failed. (failed.error ≡ NoHeading) × (failed.disk ≡ found_disk self)) }
        ensures damaged { state_of (found_bytes self) ≡ Damaged
            → IsErrAnd result (λ failed. (failed.error ≡ DamagedAt (damaged_record (found_bytes self))) × (failed.disk ≡ found_disk self)) }
        ensures openable { IfOk result (λ journal. IsOpenable (found_bytes self)) }
        ensures calm { IfOk result (λ journal. D.Disk.is_clean (disk_of journal) ≡ D.Disk.is_clean (found_disk self)) }
        ensures calm_failed { IfErr result (λ failed. D.Disk.is_clean failed.disk ≡ D.Disk.is_clean (found_disk self)) }

        // It refuses no other file by itself.
        ensures failed { IfErr result (λ failed. IsUnopened D.Disk.faults (found_bytes self) (found_disk self) failed.error failed.disk) }
        ensures faults { IfOk result (λ journal. D.Disk.faults (disk_of journal) ≡ D.Disk.faults (found_disk self)) }
    {
        let refusal = self.refusal();
        let begins = is_new(&self.contents.bytes);
        let Found { mut disk, contents } = self;
        if let Some(error) = refusal {
            return Err(Failed { error, disk });
        }
        match settle(&mut disk, &contents.bytes, contents.size, begins) {
            Ok(size) => Ok(Journal { disk, size }),
            Err(error) => Err(Failed {
                error: JournalError::File(error),
                disk,
            }),
        }
    }

    /// Gives the file back.
    pub fn into_disk(self) -> D
        ensures { result ≡ found_disk self }
    {
        let Found { disk, .. } = self;
        disk
    }

    /// Why it is not opened, where it is not.
    fn refusal(&self) -> Option<JournalError>
        requires { IsFound D.Disk.seen D.Disk.may_leave D.Disk.is_usable D.Disk.is_clean self.now }
        ensures { result ≡ refusal_at (state_of (found_bytes self.now)) (damaged_record (found_bytes self.now)) }
    {
        match self.state() {
            State::New | State::Journal => None,
            State::Damaged => Some(JournalError::Damaged(self.damaged_record())),
            State::Other => Some(JournalError::NoHeading),
        }
    }
}

/// All bytes of a file, once they are on the disk.
fn read_all<D: Disk>(alloc: Global, disk: &mut D) -> Result<Vec<u8>, JournalError>
    requires { IsTrue (D.is_usable disk.old) }
    ensures bytes { IfOk result (λ bytes. IsTrue (D.is_clean disk.new) → bytes.items ≡ D.seen disk.old) }
    ensures settled { OnOk result (IsSettled D.seen D.may_leave D.is_usable D.is_clean disk.new) }
    ensures clean { IsTrue (D.is_clean disk.new) → IsTrue (D.is_clean disk.old) }
    ensures failed { IfErr result (λ error. IsUnread D.faults error disk.old disk.new) }
    ensures faults { OnOk result (D.faults disk.new ≡ D.faults disk.old) }
    ensures seen { D.seen disk.new ≡ D.seen disk.old }
    ensures crash { (c : List ℕ) → D.may_leave disk.new c → D.may_leave disk.old c }
{
    disk.sync()?;
    let len = disk.len()?;
    let mut bytes = Vec::new(alloc);
    bytes.resize(len, 0)?;
    disk.read_at(0, &mut bytes)?;
    Ok(bytes)
}
