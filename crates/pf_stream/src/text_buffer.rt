use crate::sink::Sink;
use crate::writing::{WriteFault, write_out};
use itoa::Buffer;
use std::alloc::{AllocError, Global};
use std::marker::Model;

/// The most bytes that wait before a piece is begun: 64 KiB.
pub const MOST_WAITING: usize = 65_536;

/// The bytes of a piece that has room after them.
pub const PIECE: usize = 4_096;

/// A text on its way to a writer: the bytes of it that wait to be written. It comes in pieces: `make_room`, and then the
/// piece by `push` and `push_number`; or `put`, which does both. Each call is handed the same writer. Whoever gave text
/// must `finish`, or what waits is lost.
#[derive(Drop)]
pub struct TextBuffer {
    waiting: Vec<u8>,
}

impl Model for TextBuffer {
    ghost use Rattle.std.specs.Prelude.{◌≡◌, ◌≤◌, ℕ, List, length};
    ghost use Rattle.std.specs.Vec.{vec_capacity};

    ghost Value = { List ℕ };

    ghost view = { λ b. b.waiting.items };

    ghost invariant = { λ b. 65536 ≤ vec_capacity b.waiting };
}

impl TextBuffer {
    ghost use Rattle.std.specs.Prelude.{◌≡◌, ◌+◌, ◌-◌, ◌^◌, ◌<◌, ◌≤◌, ◌++◌, [], length, IfOk, OnOk, OnErr, MatchResult};
    ghost use Rattle.std.specs.Fmt.{decimal};
    ghost use Rattle.std.specs.Io.KnownBytes.{Appends};
    ghost use Rattle.pf_stream.specs.Written.{TookAllBut, TookFront};

    /// No text yet. The memory for what waits and for a piece after it is taken here.
    ///
    /// # Errors
    ///
    /// Where memory is refused.
    pub fn new(alloc: Global) -> Result<Self, AllocError>
        ensures { IfOk result (λ buffer. buffer ≡ []) }
    {
        Ok(TextBuffer {
            waiting: Vec::with_capacity(alloc, MOST_WAITING + PIECE)?,
        })
    }

    /// Makes room for a piece: writes what waits, where that is more than `MOST_WAITING` bytes. The writer's count of
    /// failures must be below `u64::MAX` before the call.
    ///
    /// # Errors
    ///
    /// Where a write fails: the writer has the front of the text given so far, and nothing more may be given.
    pub fn make_room<W: Sink>(&mut self, writer: &mut W) -> Result<(), WriteFault>
        requires { W.failed writer.old < 2 ^ 64 - 1 }
        ensures ok { OnOk result
            (TookAllBut self.new (W.contents writer.old) (W.contents writer.new) self.old) }
        ensures err { OnErr result (TookFront (W.contents writer.old) (W.contents writer.new) self.old) }
        ensures count { MatchResult result (λ _. W.failed writer.new ≡ W.failed writer.old)
            (λ _. W.failed writer.new ≡ W.failed writer.old + 1) }
        ensures few { OnOk result (length self.new ≤ MOST_WAITING) }
    {
        if self.waiting.len() <= MOST_WAITING {
            return Ok(());
        }
        self.write_waiting(writer)
    }

    /// Writes what waits.
    fn write_waiting<W: Sink>(&mut self, writer: &mut W) -> Result<(), WriteFault>
        requires { W.failed writer.old < 2 ^ 64 - 1 }
        ensures ok { OnOk result (Appends (W.contents writer.old) (W.contents writer.new) self.old) }
        ensures none { OnOk result (self.new ≡ []) }
        ensures err { OnErr result (TookFront (W.contents writer.old) (W.contents writer.new) self.old) }
        ensures count { MatchResult result (λ _. W.failed writer.new ≡ W.failed writer.old)
            (λ _. W.failed writer.new ≡ W.failed writer.old + 1) }
    {
        write_out(writer, self.waiting.as_slice())?;
        self.waiting.clear();
        Ok(())
    }

    /// Adds a part of a piece. Nothing is written.
    ///
    /// # Errors
    ///
    /// Where memory is refused: the text is as before.
    pub fn push(&mut self, part: &[u8]) -> Result<(), AllocError>
        ensures ok { OnOk result (self.new ≡ self.old ++ part.now) }
        ensures err { OnErr result (self.new ≡ self.old) }
    {
        self.waiting.extend_from_slice(part)
    }

    /// Adds the digits of a number, of base 10. Nothing is written.
    ///
    /// # Errors
    ///
    /// Where memory is refused: the text is as before.
    pub fn push_number(&mut self, number: u64) -> Result<(), AllocError>
        ensures ok { OnOk result (self.new ≡ self.old ++ decimal number) }
        ensures err { OnErr result (self.new ≡ self.old) }
    {
        let mut digits = Buffer::new();
        self.push(digits.format(number).as_bytes())
    }

    /// Adds a piece of any length after what waits, and writes what waits where it grows too long. The writer's count of
    /// failures must be below `u64::MAX` before the call.
    ///
    /// # Errors
    ///
    /// Where a write fails: the writer has the front of the text given so far, and nothing more may be given.
    pub fn put<W: Sink>(&mut self, writer: &mut W, piece: &[u8]) -> Result<(), WriteFault>
        requires { W.failed writer.old < 2 ^ 64 - 1 }
        ensures ok { OnOk result
            (TookAllBut self.new (W.contents writer.old) (W.contents writer.new) (self.old ++ piece.now)) }
        ensures err { OnErr result
            (TookFront (W.contents writer.old) (W.contents writer.new) (self.old ++ piece.now)) }
        ensures count { MatchResult result (λ _. W.failed writer.new ≡ W.failed writer.old)
            (λ _. W.failed writer.new ≡ W.failed writer.old + 1) }
    {
        if piece.len() > MOST_WAITING.saturating_sub(self.waiting.len()) {
            self.write_waiting(writer)?;
            if piece.len() > MOST_WAITING {
                return write_out(writer, piece);
            }
        }
        self.waiting.extend_from_slice(piece).unwrap();
        Ok(())
    }

    /// Writes what waits. The writer's count of failures must be below `u64::MAX` before the call.
    ///
    /// # Errors
    ///
    /// Where a write fails: the writer has the front of the text given so far.
    pub fn finish<W: Sink>(self, writer: &mut W) -> Result<(), WriteFault>
        requires { W.failed writer.old < 2 ^ 64 - 1 }
        ensures ok { OnOk result (Appends (W.contents writer.old) (W.contents writer.new) self) }
        ensures err { OnErr result (TookFront (W.contents writer.old) (W.contents writer.new) self) }
        ensures count { MatchResult result (λ _. W.failed writer.new ≡ W.failed writer.old)
            (λ _. W.failed writer.new ≡ W.failed writer.old + 1) }
    {
        let waiting = self.waiting;
        write_out(writer, &waiting)
    }
}
