ghost use Rattle.std.specs.Prelude.{◌≡◌, ◌+◌, ◌-◌, ◌^◌, ◌<◌, [], OnOk, OnErr, MatchResult};
ghost use Rattle.std.specs.Io.KnownBytes.{Appends};
ghost use Rattle.pf_stream.specs.Written.{CountsOutput, TookFront};

use crate::output_fault::OutputFault;
use crate::sink::Sink;
use pf_text::pieces::Pieces;
use std::alloc::Global;

/// The writer failed, or took none of the bytes offered.
#[derive(Clone, Copy)]
pub struct WriteFault;

/// Writes a whole text, by as many writes as the writer needs. Its count of failures must be below `u64::MAX` before the
/// call.
///
/// # Errors
///
/// Where a write fails: the writer has a front of the text.
pub fn write_out<W: Sink>(writer: &mut W, text: &[u8]) -> Result<(), WriteFault>
    requires { W.failed writer.old < 2 ^ 64 - 1 }
    ensures ok { OnOk result (Appends (W.contents writer.old) (W.contents writer.new) text.now) }
    ensures err { OnErr result (TookFront (W.contents writer.old) (W.contents writer.new) text.now) }
    ensures count { MatchResult result (λ _. W.failed writer.new ≡ W.failed writer.old)
        (λ _. W.failed writer.new ≡ W.failed writer.old + 1) }
{
    let mut at = 0;
    while at < text.len() {
        match writer.write_counted(&text[at..]) {
            Ok(0) => return Err(WriteFault),
            Ok(taken) => at += taken,
            Err(_) => return Err(WriteFault),
        }
    }
    Ok(())
}

/// Writes all that pieces have left, each as it comes: no write offers more than a piece, and no more than one piece is in
/// memory. The writer's count of failures must be below `u64::MAX` before the call.
///
/// # Errors
///
/// Where a write fails or memory is refused: the writer has a front of the text, and no more pieces may be asked for.
#[tactic(auto, using(crate::proofs::Sending::piece_written, crate::proofs::Sending::piece_stopped, crate::proofs::Sending::all_written, pf_lemmas::proofs::Options::anyway))]
pub fn write_pieces<P: Pieces, W: Sink>(
    alloc: Global,
    writer: &mut W,
    pieces: &mut P,
) -> Result<(), OutputFault>
    requires { W.failed writer.old < 2 ^ 64 - 1 }
    ensures ok { OnOk result (Appends (W.contents writer.old) (W.contents writer.new) (P.left pieces.old)) }
    ensures none { OnOk result (P.left pieces.new ≡ []) }
    ensures kept { OnOk result (P.outcome pieces.new ≡ P.outcome pieces.old) }
    ensures err { OnErr result (TookFront (W.contents writer.old) (W.contents writer.new) (P.left pieces.old)) }
    ensures count { CountsOutput result (W.failed writer.old) (W.failed writer.new) }
{
    'pieces: while let Some(piece) = pieces.next_piece(alloc)? {
        write_out(writer, piece.as_slice())?;
    }
    Ok(())
}
