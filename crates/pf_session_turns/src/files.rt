use crate::new_file::NewFile;
use crate::saver::Saver;
use std::fs::{
    File, OpenFile, Permissions, TryLockError, canonicalize, metadata, symlink_metadata,
};
use std::io;
use std::io::{ErrorKind, Write};
use std::rt::Files;

/// Files that sessions lock while they are their journals.
pub trait Locks: Files {
    /// Whether the file of this path is locked, by this session or another one. What is no plain file may make the call wait.
    ///
    /// # Errors
    ///
    /// Where it can't be opened for reading.
    fn is_locked(&self, path: &str) -> io::Result<bool>;
}

impl Locks for HostRuntime {
    fn is_locked(&self, path: &str) -> io::Result<bool> {
        match File::open(self, path)?.try_lock_shared() {
            Ok(()) => Ok(false),
            Err(TryLockError::WouldBlock) => Ok(true),
            Err(TryLockError::Error(fault)) => Err(fault),
        }
    }
}

/// Writes files whole or not at all: a new one beside the one that is named, which is then renamed to it. In the place of a link the
/// file is written that it leads to, and a file that was there keeps its mode. Nothing is written in the place of what is no plain
/// file, of a link that leads nowhere, of a journal that a session has open, or of a file that may not be read, as it might be one.
#[derive(Drop)]
pub struct FileSaver<'a, H> {
    rt: &'a H,
}

impl<'a, H: AllocGlobal + Locks> FileSaver<'a, H> {
    /// Of the files of a runtime.
    pub fn new(rt: &'a H) -> Self {
        FileSaver { rt }
    }
}

impl<H: AllocGlobal + Locks> Saver for FileSaver<'_, H> {
    ghost use Rattle.std.specs.Prelude.{◌≡◌, true, IsUtf8};

    // no contract can say what a file has; it stays as it was, and saves under no name that is no text
    ghost saves = { λ s file _ saved t. (t ≡ s) × (saved ≡ true → IsUtf8 file) };

    fn save(&mut self, file: &[u8], bytes: &[u8]) -> bool {
        match str::from_utf8(file) {
            Ok(path) => write_at(self.rt, path, bytes).is_ok(),
            Err(_) => false,
        }
    }
}

/// Writes bytes as the file of this path, or as the one that a link there leads to.
fn write_at<H: AllocGlobal + Locks>(rt: &H, path: &str, bytes: &[u8]) -> io::Result<()> {
    match symlink_metadata(rt, path) {
        Ok(found) if found.is_symlink() => replace(rt, canonicalize(rt, path)?.as_str(), bytes),
        Ok(_) => replace(rt, path, bytes),
        Err(fault) if fault.kind() == ErrorKind::NotFound => write_beside(rt, path, None, bytes),
        Err(fault) => Err(fault),
    }
}

/// Writes bytes in the place of a file that is there, with its mode.
fn replace<H: AllocGlobal + Locks>(rt: &H, path: &str, bytes: &[u8]) -> io::Result<()> {
    let found = metadata(rt, path)?;
    if !found.is_file() || rt.is_locked(path)? {
        return Err(io::Error::from(ErrorKind::Unsupported));
    }
    write_beside(rt, path, Some(found.permissions()), bytes)
}

/// Writes a new file beside the one of this path, which takes its place. It has the permissions that are kept, where some are.
fn write_beside<H: AllocGlobal + Files>(
    rt: &H,
    path: &str,
    kept: Option<Permissions>,
    bytes: &[u8],
) -> io::Result<()> {
    let mut new = NewFile::beside(rt, path, kept)?;
    match new.file.write_all(bytes) {
        Ok(()) => new.put(rt, path),
        Err(fault) => {
            new.remove(rt);
            Err(fault)
        }
    }
}
