use itoa::write_digits;
use std::marker::Model;

/// The bytes of the longest text: a blank, two numbers of 20 digits and the slash between them.
const LONGEST: usize = 42;

/// The text of two numbers with a slash between them, as `12/3`, or of one number, or none. It takes no memory, one after
/// another is written in the same bytes, and whoever adds it to a longer text adds it in one move.
#[derive(Drop)]
pub struct PairText {
    /// The text stands at the end, and a blank before it.
    bytes: [u8; LONGEST],
    /// Where the text begins.
    start: usize,
}

impl Model for PairText {
    ghost use Rattle.std.specs.Prelude.{◌≡◌, ◌≤◌, ◌-◌, ◌∷◌, ℕ, List, drop};

    ghost Value = { List ℕ };

    ghost view = { λ p. drop p.start p.bytes };

    ghost invariant = { λ p. (1 ≤ p.start) × (p.start ≤ 42)
        × (drop (p.start - 1) p.bytes ≡ 32 ∷ drop p.start p.bytes) };
}

impl PairText {
    ghost use Rattle.std.specs.Prelude.{◌≡◌, ◌++◌, [], codes};
    ghost use Rattle.std.specs.Fmt.{decimal};

    /// No text.
    #[inline(always)]
    pub fn empty() -> Self
        ensures { result ≡ [] }
    {
        PairText {
            bytes: [b' '; LONGEST],
            start: LONGEST,
        }
    }

    /// Puts no text in place of what it is.
    #[inline(always)]
    pub fn clear(&mut self)
        ensures { self.new ≡ [] }
    {
        self.bytes[LONGEST - 1] = b' ';
        self.start = LONGEST;
    }

    /// Puts the text of this number in place of what it is.
    #[inline(always)]
    pub fn set_one(&mut self, number: u64)
        ensures { self.new ≡ decimal number }
    {
        let start = write_digits(number, &mut self.bytes, LONGEST);
        self.bytes[start - 1] = b' ';
        self.start = start;
    }

    /// Puts the text of these two numbers in place of what it is.
    #[inline(always)]
    pub fn set(&mut self, first: u64, second: u64)
        ensures { self.new ≡ decimal first ++ codes "/" ++ decimal second }
    {
        let slash = write_digits(second, &mut self.bytes, LONGEST) - 1;
        self.bytes[slash] = b'/';
        let start = write_digits(first, &mut self.bytes, slash);
        self.bytes[start - 1] = b' ';
        self.start = start;
    }

    /// The text.
    #[inline(always)]
    pub fn as_bytes(&self) -> &[u8]
        ensures { result.now ≡ self.now }
    {
        &self.bytes[self.start..]
    }
}
