ghost use Rattle.std.specs.Prelude.{◌≡◌, ◌+◌, ◌&&◌, ◌↔◌, not, false, true, IsErr};
ghost use Rattle.sqlite_disk.specs.Disk.{CountsFault};
ghost use Rattle.sqlite_disk.specs.Refusal.{finds_no_room};

use sqlite_disk::{Disk, Tally};
use std::fs::File;
use std::os::unix::fs::MetadataExt;
use std::{fs, io};

/// A file whose path is watched, as another process may remove, rename, replace or cut it meanwhile. Before each write and cut, and
/// after each sync, the path has to lead to this file, and the file to be as long as it was written; else that call fails.
/// Bytes that another process writes into it are not seen.
#[derive(Drop)]
pub struct Watch<'r, D: Disk> {
    inner: D,
    /// The same file, locked for as long as it is watched: what a session saves is written in the place of no such file.
    _lock: File,
    rt: &'r HostRuntime,
    path: String,
    device: u64,
    inode: u64,
    /// The bytes that it has at least.
    length: u64,
    /// How many calls failed since the path did not lead here.
    losses: u64,
    /// A sync was the last of them.
    is_lost: bool,
}

impl<'r, D: Disk + Drop> Watch<'r, D> {
    ghost use Rattle.std.specs.Prelude.{◌≡◌, IfOk};
    ghost use Rattle.pf_journal_file.specs.Watches.{inner_of, IsFresh};

    /// Watches the path of a file that was just opened there.
    ///
    /// # Errors
    ///
    /// `WouldBlock` where the file is locked. Others where the path leads nowhere any more, or memory is refused.
    pub fn new(rt: &'r HostRuntime, inner: D, path: &str) -> io::Result<Self>
        ensures inner { IfOk result (λ w. inner_of w ≡ inner) }
        ensures fresh { IfOk result IsFresh }
    {
        let lock = File::open(rt, path)?;
        lock.try_lock()?;
        let found = fs::metadata(rt, path)?;
        Ok(Watch {
            inner,
            _lock: lock,
            rt,
            path: String::from_str(rt.alloc(), path)?,
            device: found.dev(),
            inode: found.ino(),
            length: found.len(),
            losses: 0,
            is_lost: false,
        })
    }
}

impl<D: Disk> Watch<'_, D> {
    /// Whether the path leads to the file, and the file is as long as it was written.
    fn is_there(&self) -> bool {
        match fs::metadata(self.rt, self.path.as_str()) {
            Ok(found) => {
                found.dev() == self.device
                    && found.ino() == self.inode
                    && found.len() >= self.length
            }
            Err(_) => false,
        }
    }
}

/// Fails where a file is not there, and counts that.
fn require(is_there: bool, losses: &mut u64) -> io::Result<()>
    ensures faults { CountsFault result losses.old losses.new }
    ensures kind { finds_no_room result ≡ false }
    ensures lost { IsErr result ↔ (is_there ≡ false) }
{
    if is_there {
        return Ok(());
    }
    *losses = losses.saturating_add(1);
    Err(io::Error::other("the path leads to another file"))
}

impl<D: Disk> Disk for Watch<'_, D> {
    ghost seen = { λ w. D.Disk.seen w.inner };

    ghost may_leave = { λ w. D.Disk.may_leave w.inner };

    ghost is_usable = { λ w. D.Disk.is_usable w.inner && not w.is_lost };

    ghost faults = { λ w. D.Disk.faults w.inner + w.losses };

    ghost tally_of = { λ w. D.Disk.tally_of w.inner };

    ghost is_rotten = { λ w. D.Disk.is_rotten w.inner };

    ghost key_of = { λ w. D.Disk.key_of w.inner };

    ghost is_frozen = { λ w. D.Disk.is_frozen w.inner };

    ghost is_clean = { λ w. D.Disk.is_clean w.inner };

    ghost is_fair = { λ w. D.Disk.is_fair w.inner };

    ghost fair_if_clean = { λ w. D.Disk.fair_if_clean w.inner };

    ghost seen_may_stay = { λ w. D.Disk.seen_may_stay w.inner };

    ghost is_mixing = { λ w. D.Disk.is_mixing w.inner };

    fn mixes(&self) -> bool {
        self.inner.mixes()
    }

    fn key(&self) -> u64 {
        self.inner.key()
    }

    fn tally(&self) -> Tally {
        self.inner.tally()
    }

    fn may_be_used(&self) -> bool {
        self.inner.may_be_used() && !self.is_lost
    }

    fn len(&mut self) -> io::Result<usize> {
        self.inner.len()
    }

    fn read_at(&mut self, at: usize, buf: &mut [u8]) -> io::Result<()> {
        self.inner.read_at(at, buf)
    }

    fn read_checked(&mut self, key: u64, want: u64, at: usize, buf: &mut [u8]) -> io::Result<()> {
        self.inner.read_checked(key, want, at, buf)
    }

    fn write_at(&mut self, at: usize, bytes: &[u8]) -> io::Result<()> {
        require(self.is_there(), &mut self.losses)?;
        let outcome = self.inner.write_at(at, bytes);
        if outcome.is_ok() {
            self.length = self.length.max(at.saturating_add(bytes.len()) as u64);
        }
        outcome
    }

    fn set_len(&mut self, len: usize) -> io::Result<()> {
        require(self.is_there(), &mut self.losses)?;
        let outcome = self.inner.set_len(len);
        self.length = match outcome {
            Ok(()) => len as u64,
            Err(_) => self.length.min(len as u64),
        };
        outcome
    }

    fn sync(&mut self) -> io::Result<()> {
        self.inner.sync()?;
        let outcome = require(self.is_there(), &mut self.losses);
        self.is_lost = outcome.is_err();
        outcome
    }
}
