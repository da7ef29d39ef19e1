//! What the bytes of a file stand for.

ghost use Rattle.std.specs.Prelude.{◌≡◌, ◌≤◌, length, true, nat_eq};
ghost use Rattle.std.specs.List.{starts_with};
ghost use Rattle.pf_journal.specs.Lines.{end_of, ends_in, heading, is_end, is_new, line_of, lines_of, texts_of};

use crate::batch::MOST_BYTES;

/// The bytes of the heading's line.
pub(crate) const HEADING_SIZE: usize = 8;

/// Whether no record stands in a file yet.
pub(crate) fn is_new(bytes: &[u8]) -> bool
    ensures { result ≡ is_new bytes.now }
{
    bytes.len() <= 1 || (bytes.len() <= 9 && bytes[0] == b' ')
}

/// Whether a crash may leave what lies after the lines of a journal, which take so many bytes.
#[tactic(auto, using(crate::proofs::Sizes::size_within))]
pub(crate) fn is_end(bytes: &[u8], size: usize) -> bool
    requires size { size ≡ length (lines_of (texts_of bytes.now)) }
    requires headed { starts_with nat_eq bytes.now (line_of heading) ≡ true }
    ensures { result ≡ is_end (texts_of bytes.now) (end_of bytes.now) }
{
    bytes.len() <= size + 1
        || (bytes[size] == b'#' && (size <= HEADING_SIZE || bytes.len() - (size + 1) <= MOST_BYTES))
}

/// How many bytes the lines take that stand at the start of a file.
#[tactic(auto, using(crate::proofs::Sizes::size_is))]
pub(crate) fn lines_size(bytes: &[u8]) -> usize
    ensures { result ≡ length (lines_of (texts_of bytes.now)) }
{
    let mut at = 0;
    let mut best = 0;
    let mut begun = false;
    let mut rest = bytes;
    while let [byte, after @ ..] = rest {
        at += 1;
        if !begun {
            if *byte != b' ' {
                return best;
            }
            begun = true;
        } else if *byte == b'\n' {
            best = at;
            begun = false;
        }
        rest = after;
    }
    best
}

/// How many lines end in these bytes.
pub(crate) fn ends_in(bytes: &[u8]) -> usize
    ensures lines { result ≡ ends_in bytes.now }
    ensures within { result ≤ length bytes.now }
{
    let mut count = 0;
    let mut rest = bytes;
    while let [byte, after @ ..] = rest {
        if *byte == b'\n' {
            count += 1;
        }
        rest = after;
    }
    count
}
