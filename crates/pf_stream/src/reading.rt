ghost use Rattle.std.specs.Prelude.{◌≡◌, ◌+◌, ◌-◌, ◌^◌, ◌<◌, ◌≤◌, IfSome, IfOk, vec_len};
ghost use Rattle.pf_stream.specs.Faults.{fault_of_reading};
ghost use Rattle.pf_stream.specs.Reading.{longest_script, ReadsScript, TakesAtMost, CountsRead};

use crate::source::Source;
use pf_vocabulary::fault::fault::Fault;
use std::alloc::Global;

/// The greatest length of a script, in bytes.
pub const LONGEST_SCRIPT: usize = 16_777_216;

// How many bytes are asked for at once.
const PIECE: usize = 8192;

/// Why no script was read.
#[derive(Clone, Copy)]
pub enum ReadingFault {
    /// The reader failed.
    Read,
    /// The input is longer than `LONGEST_SCRIPT`.
    TooLong,
    /// Out of memory.
    Memory,
}

impl From<ReadingFault> for Fault {
    ghost from_gives = { λ reading f. f ≡ fault_of_reading reading };

    fn from(fault: ReadingFault) -> Self {
        match fault {
            ReadingFault::Read => Fault::Read,
            ReadingFault::TooLong => Fault::TooLong,
            ReadingFault::Memory => Fault::NoMemory,
        }
    }
}

/// All bytes that the reader has left, at most `LONGEST_SCRIPT` of them. The reader's count of failures must be below
/// `u64::MAX` before the call.
///
/// # Errors
///
/// `TooLong` where the reader has more bytes: one of them is read, and it is not asked again. `Read` where a read fails,
/// `Memory` where memory is refused.
pub fn read_script<S: Source>(alloc: Global, reader: &mut S) -> Result<Vec<u8>, ReadingFault>
    requires { S.failed reader.old < 2 ^ 64 - 1 }
    ensures bytes { IfSome (S.remaining reader.old) (λ bytes. ReadsScript bytes result) }
    ensures taken { TakesAtMost (S.remaining reader.old) (S.remaining reader.new) (longest_script + 1) }
    ensures count { CountsRead result (S.failed reader.old) (S.failed reader.new) }
    ensures short { IfOk result (λ text. vec_len text ≤ longest_script) }
{
    let mut text = Vec::new(alloc);
    let mut piece = [0; PIECE];
    while text.len() <= LONGEST_SCRIPT {
        let room = PIECE.min(LONGEST_SCRIPT + 1 - text.len());
        let taken = match reader.read_counted(&mut piece[..room]) {
            Ok(taken) => taken,
            Err(_) => return Err(ReadingFault::Read),
        };
        if taken == 0 {
            return Ok(text);
        }
        if text.extend_from_slice(&piece[..taken]).is_err() {
            return Err(ReadingFault::Memory);
        }
    }
    Err(ReadingFault::TooLong)
}
