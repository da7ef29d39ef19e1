use std::fs::{File, OpenFile, OpenOptions, Permissions, remove_file, rename};
use std::io;
use std::io::ErrorKind;
use std::os::unix::fs::{OpenOptionsExt, PermissionsExt};
use std::path::Path;
use std::rt::Files;

// How many names are tried for a new file.
const NAMES: u8 = 100;

/// A new file beside the one of a path, whose place it takes once it is whole.
#[derive(Drop)]
pub struct NewFile<H: Files> {
    /// The file that is written.
    pub file: H::File,
    /// The folder of both.
    folder: H::File,
    /// The path that it has until then.
    beside: String,
    /// The permissions that it gets then, where there are some.
    kept: Option<Permissions>,
}

impl<H: AllocGlobal + Files> NewFile<H> {
    /// Makes one under the first name that is free, from `PATH.new0` on, which is to have these permissions, where there are some.
    ///
    /// # Errors
    ///
    /// Where it can't be made, or a hundred names are taken.
    pub fn beside(rt: &H, path: &str, kept: Option<Permissions>) -> io::Result<NewFile<H>> {
        let folder = File::open(rt, folder_of(path))?;
        let mut options = OpenOptions::new();
        options.write(true).create_new(true);
        if let Some(permissions) = &kept {
            // Whoever may not read the file that was there doesn't read the new one meanwhile either.
            options.mode(permissions.mode() & 0o777);
        }
        for number in 0..NAMES {
            let beside = format!(in rt.alloc(); "{path}.new{number}")?;
            match options.open(rt, beside.as_str()) {
                Ok(file) => {
                    return Ok(NewFile {
                        file,
                        folder,
                        beside,
                        kept,
                    });
                }
                Err(fault) if fault.kind() == ErrorKind::AlreadyExists => {}
                Err(fault) => return Err(fault),
            }
        }
        Err(io::Error::from(ErrorKind::AlreadyExists))
    }

    /// Puts it in the place of the file of that path, so that it lasts. Where that fails it is removed; but where the folder alone does
    /// not take it for good it is there, and may not last.
    ///
    /// # Errors
    ///
    /// Where one of these steps fails.
    pub fn put(self, rt: &H, path: &str) -> io::Result<()> {
        let NewFile {
            mut file,
            folder,
            beside,
            kept,
        } = self;
        let settled = settle(&mut file, kept);
        drop(file);
        if settled.is_ok() && rename(rt, beside.as_str(), path).is_ok() {
            return folder.sync_all();
        }
        let _ = remove_file(rt, beside.as_str());
        Err(io::Error::from(ErrorKind::Other))
    }

    /// Removes it.
    pub fn remove(self, rt: &H) {
        let _ = remove_file(rt, self.beside.as_str());
    }
}

/// Sees that a file lasts, with these permissions, where there are some.
fn settle<T: OpenFile>(file: &mut T, kept: Option<Permissions>) -> io::Result<()> {
    if let Some(permissions) = kept {
        file.set_permissions(permissions)?;
    }
    file.sync_all()
}

/// The folder of the file of this path.
fn folder_of(path: &str) -> &str {
    match Path::new(path).parent() {
        Some(folder) if !folder.as_str().is_empty() => folder.as_str(),
        _ => ".",
    }
}
