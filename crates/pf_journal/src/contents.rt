ghost use Rattle.std.specs.Prelude.{◌≡◌, length};
ghost use Rattle.pf_journal.specs.Lines.{lines_of, texts_of};

use crate::shape::lines_size;

/// The bytes of a file.
#[derive(Drop)]
pub(crate) struct Contents {
    pub(crate) bytes: Vec<u8>,
    /// How many of them its lines take.
    pub(crate) size: usize,
    ghost sized: { size ≡ length (lines_of (texts_of bytes.items)) },
}

impl Contents {
    /// Those of a file with these bytes.
    pub(crate) fn of(bytes: Vec<u8>) -> Self
        ensures { result.bytes ≡ bytes }
    {
        let size = lines_size(&bytes);
        Contents { bytes, size }
    }

    /// The lines that stand at their start.
    pub(crate) fn lines(&self) -> &[u8]
        ensures { result.now ≡ lines_of (texts_of self.now.bytes.items) }
    {
        &self.bytes[..self.size]
    }
}
