ghost use Rattle.std.specs.Prelude.{◌≡◌, ◌++◌, codes, IfOk};
ghost use Rattle.pf_script.specs.FaultNotes.FileFaults.{file_fault_of, file_fault_line};
ghost use Rattle.pf_text.specs.FileName.{file_text};

use pf_text::file_name::push_file;
use std::alloc::{AllocError, Global};
use std::io::ErrorKind;

/// Why a file can't be read.
#[derive(Clone, Copy)]
pub enum FileFault {
    /// There is none of this name.
    Missing,
    /// It is a folder.
    Folder,
    /// It may not be read.
    Denied,
    /// A part of its path is no folder.
    NoFolder,
    /// It has more bytes than a script may have.
    TooLong,
    /// Another fault of opening or reading it.
    Unread,
}

impl FileFault {
    ghost use Rattle.std.specs.Prelude.{◌≡◌};
    ghost use Rattle.pf_script.specs.FaultNotes.FileFaults.{file_fault_of, file_fault_text};

    /// The fault that a kind of failure tells of.
    pub fn of(kind: ErrorKind) -> FileFault
        ensures { result ≡ file_fault_of kind }
    {
        match kind {
            ErrorKind::NotFound => FileFault::Missing,
            ErrorKind::IsADirectory => FileFault::Folder,
            ErrorKind::PermissionDenied => FileFault::Denied,
            ErrorKind::NotADirectory => FileFault::NoFolder,
            _ => FileFault::Unread,
        }
    }

    /// What is told of it after the file's name.
    fn text(self) -> &'static str
        ensures { result.now ≡ file_fault_text self }
    {
        match self {
            FileFault::Missing => "no such file",
            FileFault::Folder => "is a folder",
            FileFault::Denied => "permission denied",
            FileFault::NoFolder => "a part of its path is no folder",
            FileFault::TooLong => "it has more than 16777216 bytes",
            FileFault::Unread => "cannot be read",
        }
    }
}

/// The line that tells why the file of this name can't be read.
///
/// # Errors
///
/// Where memory is refused.
pub fn file_fault_line(alloc: Global, file: &[u8], fault: FileFault) -> Result<Vec<u8>, AllocError>
    ensures { IfOk result (λ text. text.items ≡ file_fault_line file.now fault) }
{
    let mut text = Vec::new(alloc);
    push_file(&mut text, file)?;
    text.extend_from_slice(b": ")?;
    text.extend_from_slice(fault.text().as_bytes())?;
    text.push(b'\n')?;
    Ok(text)
}
