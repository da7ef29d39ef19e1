//! The steps in which a journal's file is written. Each is on the disk before the next one begins.

ghost use Rattle.std.specs.Prelude.{◌≡◌, ◌≢◌, ◌+◌, ◌^◌, ◌<◌, ◌≤◌, ◌++◌, ◌∷◌, [], ℕ, List, length, take, slice_index, true, IsTrue, OnOk, IfOk};
ghost use Rattle.sqlite_disk.specs.Disk.{Holds, Torn, Mixed, Cut, Only, CountsFault};
ghost use Rattle.pf_journal.specs.Lines.{heading, is_new, lines_of, journal_of, texts_of, records_of, state_of};
ghost use Rattle.pf_journal.specs.Crash.{IsShutAt, IsAdding, IsAddingMixed, IsBegun, IsAtRest, IsMended, IsMixing, IsOpenable};
ghost use Rattle.pf_journal.specs.Kept.{IsSettled};
ghost use Rattle.pf_journal.specs.declared.state.State.TheVariants.{Journal};

use crate::shape::HEADING_SIZE;
use sqlite_disk::Disk;
use std::io;

/// Writes bytes at an offset, and syncs them.
fn write<D: Disk>(disk: &mut D, at: usize, bytes: &[u8]) -> io::Result<()>
    requires settled { IsSettled D.seen D.may_leave D.is_usable D.is_clean disk.old }
    requires some { 0 < length bytes.now }
    ensures settled { OnOk result (IsSettled D.seen D.may_leave D.is_usable D.is_clean disk.new) }
    ensures written { OnOk result (Holds (D.seen disk.new) at bytes.now) }
    ensures others { Torn at (length bytes.now) (D.seen disk.old) (D.seen disk.new) }
    ensures calm { D.is_clean disk.new ≡ D.is_clean disk.old }
    ensures faults { CountsFault result (D.faults disk.old) (D.faults disk.new) }
    ensures crash { IsTrue (D.is_clean disk.old) → (c : List ℕ) → D.may_leave disk.new c → Torn at (length bytes.now) (D.seen disk.old) c }
    ensures mixed { IsMixing D.is_mixing → at + length bytes.now < 2 ^ 64 → IsTrue (D.is_clean disk.old) → (c : List ℕ) → D.may_leave disk.new c
        → Mixed at bytes.now (D.seen disk.old) c }
{
    disk.write_at(at, bytes)?;
    disk.sync()
}

/// Makes the file so many bytes long, and syncs it.
fn cut<D: Disk>(disk: &mut D, len: usize) -> io::Result<()>
    requires settled { IsSettled D.seen D.may_leave D.is_usable D.is_clean disk.old }
    ensures settled { OnOk result (IsSettled D.seen D.may_leave D.is_usable D.is_clean disk.new) }
    ensures len { OnOk result (length (D.seen disk.new) ≡ len) }
    ensures others { Cut len (D.seen disk.old) (D.seen disk.new) }
    ensures calm { D.is_clean disk.new ≡ D.is_clean disk.old }
    ensures faults { CountsFault result (D.faults disk.old) (D.faults disk.new) }
    ensures crash { IsTrue (D.is_clean disk.old) → (c : List ℕ) → D.may_leave disk.new c → Cut len (D.seen disk.old) c }
{
    disk.set_len(len)?;
    disk.sync()
}

/// Adds bytes after the shut gate that ends the file, and opens that gate.
pub(crate) fn add<D: Disk>(disk: &mut D, gate: usize, added: &[u8]) -> io::Result<()>
    requires settled { IsSettled D.seen D.may_leave D.is_usable D.is_clean disk.old }
    requires room { gate < 2 ^ 60 }
    requires some { 0 < length added.now }
    requires shut { IsTrue (D.is_clean disk.old) → IsShutAt gate (D.seen disk.old) }
    ensures settled { OnOk result (IsSettled D.seen D.may_leave D.is_usable D.is_clean disk.new) }
    ensures added { OnOk result (IsTrue (D.is_clean disk.old) → D.seen disk.new ≡ take gate (D.seen disk.old) ++ 32 ∷ added.now) }
    ensures calm { D.is_clean disk.new ≡ D.is_clean disk.old }
    ensures faults { CountsFault result (D.faults disk.old) (D.faults disk.new) }
    ensures crash { IsTrue (D.is_clean disk.old) → (c : List ℕ) → D.may_leave disk.new c → IsAdding (take gate (D.seen disk.old)) added.now c }
    ensures mixed { IsMixing D.is_mixing → IsTrue (D.is_clean disk.old) → (c : List ℕ) → D.may_leave disk.new c
        → IsAddingMixed (take gate (D.seen disk.old)) added.now c }
{
    write(disk, gate + 1, added)?;
    write(disk, gate, b" ")
}

/// Writes the gate of a heading into a file of one byte at most.
fn begin_heading<D: Disk>(disk: &mut D, bytes: &[u8]) -> io::Result<()>
    requires settled { IsSettled D.seen D.may_leave D.is_usable D.is_clean disk.old }
    requires bytes { IsTrue (D.is_clean disk.old) → bytes.now ≡ D.seen disk.old }
    requires short { length bytes.now ≤ 1 }
    ensures settled { OnOk result (IsSettled D.seen D.may_leave D.is_usable D.is_clean disk.new) }
    ensures begun { OnOk result (IsTrue (D.is_clean disk.old) → IsBegun (D.seen disk.new)) }
    ensures calm { D.is_clean disk.new ≡ D.is_clean disk.old }
    ensures faults { CountsFault result (D.faults disk.old) (D.faults disk.new) }
    ensures crash { IsTrue (D.is_clean disk.old) → (c : List ℕ) → D.may_leave disk.new c → is_new c ≡ true }
{
    write(disk, 0, b" ")
}

/// Writes the rest of a heading after its gate, and a shut gate.
fn end_heading<D: Disk>(disk: &mut D) -> io::Result<()>
    requires settled { IsSettled D.seen D.may_leave D.is_usable D.is_clean disk.old }
    requires begun { IsTrue (D.is_clean disk.old) → IsBegun (D.seen disk.old) }
    ensures settled { OnOk result (IsSettled D.seen D.may_leave D.is_usable D.is_clean disk.new) }
    ensures ended { OnOk result (IsTrue (D.is_clean disk.old) → D.seen disk.new ≡ journal_of (heading ∷ [])) }
    ensures calm { D.is_clean disk.new ≡ D.is_clean disk.old }
    ensures faults { CountsFault result (D.faults disk.old) (D.faults disk.new) }
    ensures crash { IsTrue (D.is_clean disk.old) → (c : List ℕ) → D.may_leave disk.new c → is_new c ≡ true }
{
    write(disk, 1, b"plan,1\n#")
}

/// Makes a journal without records of a new file.
fn begin<D: Disk>(disk: &mut D, bytes: &[u8]) -> io::Result<()>
    requires settled { IsSettled D.seen D.may_leave D.is_usable D.is_clean disk.old }
    requires bytes { IsTrue (D.is_clean disk.old) → bytes.now ≡ D.seen disk.old }
    requires new { is_new bytes.now ≡ true }
    ensures settled { OnOk result (IsSettled D.seen D.may_leave D.is_usable D.is_clean disk.new) }
    ensures begun { OnOk result (IsTrue (D.is_clean disk.old) → D.seen disk.new ≡ journal_of (heading ∷ [])) }
    ensures calm { D.is_clean disk.new ≡ D.is_clean disk.old }
    ensures faults { CountsFault result (D.faults disk.old) (D.faults disk.new) }
    ensures crash { IsTrue (D.is_clean disk.old) → (c : List ℕ) → D.may_leave disk.new c → is_new c ≡ true }
{
    if bytes.len() > 1 {
        return end_heading(disk);
    }
    begin_heading(disk, bytes)?;
    end_heading(disk)
}

/// Mends the end of a journal that a crash may have left. One that is at rest is not written to.
#[tactic(auto, using(crate::proofs::Sizes::size_within))]
fn mend<D: Disk>(disk: &mut D, bytes: &[u8], size: usize) -> io::Result<()>
    requires settled { IsSettled D.seen D.may_leave D.is_usable D.is_clean disk.old }
    requires bytes { IsTrue (D.is_clean disk.old) → bytes.now ≡ D.seen disk.old }
    requires size { size ≡ length (lines_of (texts_of bytes.now)) }
    requires journal { state_of bytes.now ≡ Journal }
    ensures settled { OnOk result (IsSettled D.seen D.may_leave D.is_usable D.is_clean disk.new) }
    ensures mended { OnOk result (IsTrue (D.is_clean disk.old) → D.seen disk.new ≡ journal_of (texts_of bytes.now)) }
    ensures calm { D.is_clean disk.new ≡ D.is_clean disk.old }
    ensures faults { CountsFault result (D.faults disk.old) (D.faults disk.new) }
    ensures crash { IsTrue (D.is_clean disk.old) → (c : List ℕ) → D.may_leave disk.new c → IsMended bytes.now c }
{
    if bytes.len() > size + 1 {
        return cut(disk, size + 1);
    }
    if size < bytes.len() && bytes[size] == b'#' {
        return Ok(());
    }
    write(disk, size, b"#")
}

/// Makes a journal at rest of a file, and says where its shut gate is.
pub(crate) fn settle<D: Disk>(
    disk: &mut D,
    bytes: &[u8],
    size: usize,
    begins: bool,
) -> io::Result<usize>
    requires settled { IsSettled D.seen D.may_leave D.is_usable D.is_clean disk.old }
    requires bytes { IsTrue (D.is_clean disk.old) → bytes.now ≡ D.seen disk.old }
    requires size { size ≡ length (lines_of (texts_of bytes.now)) }
    requires new { begins ≡ is_new bytes.now }
    requires known { IsOpenable bytes.now }
    ensures settled { OnOk result (IsSettled D.seen D.may_leave D.is_usable D.is_clean disk.new) }
    ensures at_rest { IfOk result (λ gate. IsTrue (D.is_clean disk.old) → IsAtRest (D.seen disk.new) gate) }
    ensures same { OnOk result (IsTrue (D.is_clean disk.old) → records_of (D.seen disk.new) ≡ records_of bytes.now) }
    ensures calm { D.is_clean disk.new ≡ D.is_clean disk.old }
    ensures faults { CountsFault result (D.faults disk.old) (D.faults disk.new) }
    ensures crash { IsTrue (D.is_clean disk.old) → (c : List ℕ) → D.may_leave disk.new c → IsMended bytes.now c }
{
    if begins {
        begin(disk, bytes)?;
        return Ok(HEADING_SIZE);
    }
    mend(disk, bytes, size)?;
    Ok(size)
}
