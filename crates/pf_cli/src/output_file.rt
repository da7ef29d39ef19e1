ghost use Rattle.std.specs.Prelude.{◌≡◌, IfOk};
ghost use Rattle.pf_cli.specs.Outputs.{is_whole, output_fault_line, output_fault_text};

use pf_session_turns::new_file::NewFile;
use pf_text::file_name::push_file;
use pf_vocabulary::fault::status::Status;
use std::alloc::{AllocError, Global};
use std::fs::{OpenOptions, Permissions, metadata, symlink_metadata};
use std::io;
use std::io::{ErrorKind, Write};
use std::rt::Files;

/// The file to which an answer is written in place of standard output, whole or not at all. It is opened at the first byte: what is no
/// plain file is written itself, else a new file beside it, which takes its place at the end.
#[derive(Drop)]
pub(crate) struct OutputFile<'a, H: Files> {
    rt: &'a H,
    path: &'a str,
    opened: Option<Opened<H>>,
    /// How opening it or a write failed, if one did.
    fault: Option<ErrorKind>,
}

/// What is written.
#[derive(Drop)]
enum Opened<H: Files> {
    /// A new file, which takes its place.
    New(NewFile<H>),
    /// The file itself.
    Itself(H::File),
}

impl<'a, H: AllocGlobal + Files> OutputFile<'a, H> {
    ghost use Rattle.std.specs.Prelude.{◌≡◌, ◌⊎◌};
    ghost use Rattle.std.specs.Io.{WritesAtMost};
    ghost use Rattle.std.specs.Io.KnownBytes.{Keeps};

    /// The file of this path. Nothing is opened yet.
    pub(crate) fn new(rt: &'a H, path: &'a str) -> Self {
        OutputFile {
            rt,
            path,
            opened: None,
            fault: None,
        }
    }

    /// Ends what was written where the program ends with this status: the file is as it was, or absent, unless all was written. Where it
    /// can't be written that is told, and the status is 3; else it is the one given.
    pub(crate) fn finish<F: Write>(self, status: u8, is_test: bool, faults: &mut F) -> u8
        ensures status { (result ≡ status) ⊎ (result ≡ 3) }
        ensures quiet { result ≡ 0 → Keeps (F.contents faults.old) (F.contents faults.new) }
    {
        let (rt, path) = (self.rt, self.path);
        match self.close(status, is_test) {
            Ok(()) => status,
            Err(kind) => {
                if let Ok(line) = output_fault_line(rt.alloc(), path.as_bytes(), kind) {
                    // A fault of writing it is passed over: it could be told nowhere.
                    let _ = faults.write_all(&line);
                }
                Status::StreamFailed.number()
            }
        }
    }

    /// Puts the new file in its place where all was written, else removes it.
    ///
    /// # Errors
    ///
    /// How it could not be written.
    fn close(self, status: u8, is_test: bool) -> Result<(), ErrorKind> {
        let OutputFile {
            rt,
            path,
            opened,
            fault,
        } = self;
        if let Some(kind) = fault {
            remove(rt, opened);
            return Err(kind);
        }
        if !is_whole(status, is_test, opened.is_some()) {
            remove(rt, opened);
            return Ok(());
        }
        match put(rt, path, opened) {
            Ok(()) => Ok(()),
            Err(fault) => Err(fault.kind()),
        }
    }

    /// One write, before which the file is opened where it is not.
    fn write_opened(&mut self, buf: &[u8]) -> io::Result<usize>
        ensures { WritesAtMost result buf.now }
    {
        if self.opened.is_none() {
            self.opened = Some(open(self.rt, self.path)?);
        }
        match &mut self.opened {
            Some(Opened::New(new)) => new.file.write(buf),
            Some(Opened::Itself(file)) => file.write(buf),
            None => Err(io::Error::from(ErrorKind::Other)),
        }
    }
}

impl<H: AllocGlobal + Files> Write for OutputFile<'_, H> {
    /// Where the file can't be opened or written nobody is said to read any more: what failed is told at the end.
    fn write(&mut self, buf: &[u8]) -> io::Result<usize> {
        match self.write_opened(buf) {
            Ok(0) if !buf.is_empty() => self.fault = Some(ErrorKind::WriteZero),
            Ok(taken) => return Ok(taken),
            Err(fault) if fault.kind() == ErrorKind::Interrupted => return Err(fault),
            Err(fault) => self.fault = Some(fault.kind()),
        }
        Err(io::Error::from(ErrorKind::BrokenPipe))
    }

    fn flush(&mut self) -> io::Result<()> {
        Ok(())
    }
}

/// Whether all was written that was asked for, by the status: all was done, or a test's answer was written.
fn is_whole(status: u8, is_test: bool, is_opened: bool) -> bool
    ensures { result ≡ is_whole status is_test is_opened }
{
    status == Status::Done.number()
        || status == Status::FailedOn.number()
        || status == Status::BadScript.number() && is_test && is_opened
}

/// Opens the file of this path: itself where it is there and no plain file, else a new one beside it.
///
/// # Errors
///
/// Where it is a folder, or can't be opened.
fn open<H: AllocGlobal + Files>(rt: &H, path: &str) -> io::Result<Opened<H>> {
    match metadata(rt, path) {
        Ok(found) if found.is_dir() => Err(io::Error::from(ErrorKind::IsADirectory)),
        Ok(found) if !found.is_file() => {
            let mut options = OpenOptions::new();
            Ok(Opened::Itself(options.write(true).open(rt, path)?))
        }
        _ => {
            let kept = kept_permissions(rt, path);
            Ok(Opened::New(NewFile::beside(rt, path, kept)?))
        }
    }
}

/// The permissions of the plain file of this path; none of a link, which is replaced.
fn kept_permissions<H: Files>(rt: &H, path: &str) -> Option<Permissions> {
    match symlink_metadata(rt, path) {
        Ok(found) if found.is_file() => Some(found.permissions()),
        _ => None,
    }
}

/// Removes a new file.
fn remove<H: AllocGlobal + Files>(rt: &H, opened: Option<Opened<H>>) {
    if let Some(Opened::New(new)) = opened {
        new.remove(rt);
    }
}

/// Puts a new file in the place of the one of this path; an empty one where none was opened.
fn put<H: AllocGlobal + Files>(rt: &H, path: &str, opened: Option<Opened<H>>) -> io::Result<()> {
    let opened = match opened {
        Some(opened) => opened,
        None => open(rt, path)?,
    };
    match opened {
        Opened::New(new) => new.put(rt, path),
        Opened::Itself(_) => Ok(()),
    }
}

/// Why the file can't be written, by the kind of the failure.
fn output_fault_text(kind: ErrorKind) -> &'static str
    ensures { result.now ≡ output_fault_text kind }
{
    match kind {
        ErrorKind::NotFound => "no such folder",
        ErrorKind::IsADirectory => "is a folder",
        ErrorKind::PermissionDenied => "permission denied",
        ErrorKind::NotADirectory => "a part of its path is no folder",
        _ => "cannot be written",
    }
}

/// The line of that.
///
/// # Errors
///
/// Where memory is refused.
fn output_fault_line(alloc: Global, file: &[u8], kind: ErrorKind) -> Result<Vec<u8>, AllocError>
    ensures { IfOk result (λ text. text.items ≡ output_fault_line file.now kind) }
{
    let mut text = Vec::new(alloc);
    push_file(&mut text, file)?;
    text.extend_from_slice(b": ")?;
    text.extend_from_slice(output_fault_text(kind).as_bytes())?;
    text.push(b'\n')?;
    Ok(text)
}
