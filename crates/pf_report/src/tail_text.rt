ghost use Rattle.std.specs.Prelude.{◌≡◌, ◌+◌, ◌≤◌, ◌<◌, ◌∷◌, ◌++◌, [], length};
ghost use Rattle.std.specs.Fmt.{decimal};

use itoa::write_digits;
use std::marker::Model;

/// The most bytes of such a text.
const ROOM: usize = 256;

/// A short text, of up to 256 bytes, that is put together from its end: each part is put before what there is. It takes no
/// memory, and whoever adds it to a longer text adds it in one move.
#[derive(Drop)]
pub(crate) struct TailText {
    /// The text stands at the end.
    bytes: [u8; ROOM],
    /// Where the text begins.
    start: usize,
}

impl Model for TailText {
    ghost use Rattle.std.specs.Prelude.{◌≤◌, ℕ, List, drop};

    ghost Value = { List ℕ };

    ghost view = { λ t. drop t.start t.bytes };

    ghost invariant = { λ t. t.start ≤ 256 };
}

impl TailText {
    /// A text of no bytes.
    #[inline(always)]
    pub fn new() -> Self
        ensures { result ≡ [] }
    {
        TailText {
            bytes: [0; ROOM],
            start: ROOM,
        }
    }

    /// Puts a byte before the text.
    #[inline(always)]
    pub fn put_byte(&mut self, byte: u8)
        requires { length self.old < 256 }
        ensures text { self.new ≡ byte ∷ self.old }
        ensures room { length self.new ≡ length self.old + 1 }
    {
        self.start -= 1;
        self.bytes[self.start] = byte;
    }

    /// Puts some bytes before the text.
    #[inline(always)]
    pub fn put_bytes(&mut self, bytes: &[u8])
        requires { length bytes.now + length self.old ≤ 256 }
        ensures { self.new ≡ bytes.now ++ self.old }
    {
        let end = self.start;
        self.start = end - bytes.len();
        self.bytes[self.start..end].copy_from_slice(bytes);
    }

    /// Puts the digits of a number, of base 10, before the text: 20 at most.
    #[inline(always)]
    pub fn put_number(&mut self, number: u64)
        requires { length self.old + 20 ≤ 256 }
        ensures text { self.new ≡ decimal number ++ self.old }
        ensures room { length self.new ≤ length self.old + 20 }
    {
        self.put_digits(number);
    }

    /// Puts the digits of a number of 32 bits before the text: ten at most.
    #[inline(always)]
    pub fn put_short(&mut self, number: u32)
        requires { length self.old + 10 ≤ 256 }
        ensures text { self.new ≡ decimal number ++ self.old }
        ensures room { length self.new ≤ length self.old + 10 }
    {
        self.put_digits(u64::from(number));
    }

    /// Puts the digits of a number, for which there is room, before the text.
    #[inline(always)]
    fn put_digits(&mut self, number: u64)
        requires { length (decimal number) + length self.old ≤ 256 }
        ensures { self.new ≡ decimal number ++ self.old }
    {
        self.start = write_digits(number, &mut self.bytes, self.start);
    }

    /// The text.
    #[inline(always)]
    pub fn as_bytes(&self) -> &[u8]
        ensures { result.now ≡ self.now }
    {
        &self.bytes[self.start..]
    }
}
