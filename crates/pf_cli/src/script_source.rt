ghost use Rattle.std.specs.Prelude.{◌≡◌, ◌⊎◌, ◌-◌, ◌^◌, ◌<◌, ◌≤◌, Err, IfOk, IfSome, IsSome, vec_len};
ghost use Rattle.pf_stream.specs.Reading.{ReadsScript, longest_script};
ghost use Rattle.pf_stream.specs.declared.reading.ReadingFault.TheVariants.{Read};
ghost use Rattle.pf_arguments.specs.Asked.{name_of};
ghost use Rattle.pf_cli.specs.Source.{IsHad, IsSource, told_name};

use pf_stream::reading::{ReadingFault, read_script};
use pf_stream::source::{CountedReader, Source};
use pf_vocabulary::fault::fault::Fault;
use std::fs::File;
use std::rt::Files;

/// The script that lies in a file, or all that the reader has left where none is named. The reader's count of failures must
/// be below `u64::MAX` before the call.
///
/// # Errors
///
/// `Read` where the file can't be opened or read, or the reader fails; `TooLong` where there are more bytes than a script may
/// have, of which one is read; `NoMemory` where memory is refused.
pub(crate) fn read_source<H: AllocGlobal + Files, R: Source>(
    rt: &H,
    file: &Option<String>,
    reader: &mut R,
) -> Result<Vec<u8>, Fault>
    requires { R.failed reader.old < 2 ^ 64 - 1 }
    ensures had { IsHad result }
    ensures source { IsSource (name_of file.now) result (R.remaining reader.old) (R.failed reader.old) (R.remaining reader.new) (R.failed reader.new) }
    ensures kept { IsSome file.now → reader.new ≡ reader.old }
{
    match file {
        None => Ok(read_script(rt.alloc(), reader)?),
        Some(path) => Ok(read_file(rt, path.as_str())?),
    }
}

/// The name by which a file is told: `-` for standard input.
pub(crate) fn told_name(file: &Option<String>) -> &[u8]
    ensures { result.now ≡ told_name (name_of file.now) }
{
    match file {
        Some(name) => name.as_bytes(),
        None => b"-",
    }
}

/// The script that lies in a file: all bytes that the runtime gives of the one that it opened.
pub(crate) fn read_file<H: AllocGlobal + Files>(rt: &H, path: &str) -> Result<Vec<u8>, ReadingFault>
    ensures short { IfOk result (λ script. vec_len script ≤ longest_script) }
    ensures whole { (result ≡ Err Read) ⊎ ((file : H.File) × IfSome (H.File.remaining file) (λ bytes. ReadsScript bytes result)) }
{
    match File::open(rt, path) {
        Ok(file) => read_script(rt.alloc(), &mut CountedReader::new(file)),
        Err(_) => Err(ReadingFault::Read),
    }
}
