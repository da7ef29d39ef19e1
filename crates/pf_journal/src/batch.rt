use std::alloc::{AllocError, Global};
use std::marker::Model;

/// The lines that a batch has at most.
const MOST_LINES: usize = 1024;

/// The bytes that the text of a line has at most.
pub(crate) const MOST_TEXT: usize = 65_536;

/// The bytes that its lines have at most: 64 KiB, and the gate and the end of one line.
pub(crate) const MOST_BYTES: usize = 65_538;

/// Lines that are put into a journal together. Contracts see them as their texts. The memory of as many as it may have is taken as
/// it is made.
#[derive(Drop)]
pub struct Batch {
    /// The lines with open gates, and a shut gate after them.
    bytes: Vec<u8>,
    lines: usize,
}

impl Model for Batch {
    ghost use Rattle.std.specs.Prelude.{◌≡◌, ◌≤◌, ℕ, List, length};
    ghost use Rattle.std.specs.Vec.{vec_capacity};
    ghost use Rattle.pf_journal.specs.Lines.{journal_of, texts_of};

    ghost Value = { List (List ℕ) };

    ghost view = { λ b. texts_of b.bytes.items };

    ghost invariant = { λ b. (b.bytes.items ≡ journal_of (texts_of b.bytes.items)) × (b.lines ≡ length (texts_of b.bytes.items)) × (length b.bytes.items ≤ 65539)
        × (65539 ≤ vec_capacity b.bytes) };
}

impl Batch {
    ghost use Rattle.std.specs.Prelude.{◌≡◌, ◌≤◌, ◌++◌, ◌∷◌, [], true, length, IfOk};
    ghost use Rattle.pf_journal.specs.Lines.{is_text, journal_of, texts_of};
    ghost use Rattle.pf_journal.specs.Batches.{has_room};

    /// A batch without lines.
    ///
    /// # Errors
    ///
    /// Where memory is refused.
    pub fn new(alloc: Global) -> Result<Batch, AllocError>
        ensures { IfOk result (λ batch. batch ≡ []) }
    {
        let mut bytes = Vec::with_capacity(alloc, MOST_BYTES + 1)?;
        bytes.extend_from_slice(b"#")?;
        Ok(Batch { bytes, lines: 0 })
    }

    /// Takes all lines out.
    pub fn clear(&mut self)
        ensures { self.new ≡ [] }
    {
        self.bytes.clear();
        self.bytes.extend_from_slice(b"#").unwrap();
        self.lines = 0;
    }

    /// Whether a line fits: a batch has at most 1,024 lines, and 64 KiB beside the gate and the end of one. So each text of at
    /// most 65,536 bytes fits into an empty one.
    pub fn has_room(&self, text: &[u8]) -> bool
        ensures { result ≡ has_room self.now text.now }
    {
        self.lines < MOST_LINES && self.bytes.len() + text.len() < MOST_BYTES
    }

    /// Adds a line.
    pub fn push(&mut self, text: &[u8])
        requires text { is_text text.now ≡ true }
        requires room { has_room self.old text.now ≡ true }
        ensures ok { self.new ≡ self.old ++ text.now ∷ [] }
    {
        let gate = self.bytes.len() - 1;
        self.bytes.extend_from_slice(text).unwrap();
        self.bytes.extend_from_slice(b"\n#").unwrap();
        self.bytes[gate] = b' ';
        self.lines += 1;
    }

    /// Its lines with open gates, and a shut gate after them.
    pub(crate) fn bytes(&self) -> &[u8]
        ensures bytes { result.now ≡ journal_of self.now }
        ensures read { texts_of result.now ≡ self.now }
        ensures few { length result.now ≤ 65539 }
    {
        &self.bytes
    }
}
