ghost use Rattle.std.specs.Prelude.{◌≡◌, ◌≤◌, ◌<◌, ◌+◌, ◌-◌, ◌^◌, length};
ghost use Rattle.csv.specs.Reading.{strip_bom};
ghost use Rattle.pf_text.specs.Rows.Places.{line_after};

use crate::rows::place::Place;

/// The lines of a text on which its records begin, one after another, and then the line of its end.
#[derive(Drop)]
pub struct RowLines<'a> {
    bytes: &'a [u8],
    at: usize,
    place: Place,
    // The line of the next byte, and the byte before it.
    line: u64,
    before: u8,
    ghost counted: { line ≤ at + 1 },
    ghost within: { at ≤ length bytes.now },
}

impl<'a> RowLines<'a> {
    ghost use Rattle.std.specs.Prelude.{◌≡◌, ◌+◌, ◌<◌, length};
    ghost use Rattle.pf_text.specs.Rows.Places.{record_lines, line_at, lines_behind, line_if};
    ghost use Rattle.pf_text.specs.Rows.Left.{lines_ahead};

    /// The lines of all records of a text. A byte order mark before the first one is passed over.
    pub fn new(text: &'a [u8]) -> Self
        ensures { lines_ahead result ≡ record_lines text.now }
    {
        RowLines {
            bytes: without_mark(text),
            at: 0,
            place: Place::Between,
            line: 1,
            before: 0,
        }
    }

    /// The line on which the next record begins, and after the last one that of the end, however often it is asked for.
    pub fn next_line(&mut self) -> u64
        ensures line { result ≡ line_at (lines_ahead self.old) }
        ensures rest { lines_ahead self.new ≡ lines_behind (lines_ahead self.old) }
    {
        while self.at < self.bytes.len() {
            let line = self.line;
            if self.begins_record() {
                return line;
            }
        }
        self.line
    }

    /// Goes one byte on, and says whether a record begins with it.
    fn begins_record(&mut self) -> bool
        requires some { self.old.at < length self.old.bytes.now }
        ensures lines { lines_ahead self.old ≡ line_if result self.old.line (lines_ahead self.new) }
        ensures one { self.new.at ≡ self.old.at + 1 }
        ensures bytes { self.new.bytes ≡ self.old.bytes }
    {
        let byte = self.bytes[self.at];
        let was_between = self.place.is_between();
        self.place = self.place.after(byte);
        self.line = line_after(self.line, self.before, byte);
        self.before = byte;
        self.at += 1;
        was_between && !self.place.is_between()
    }
}

/// The text without a byte order mark at its start.
#[tactic(auto, unfolding(csv::specs::Reading::strip_bom))]
fn without_mark(text: &[u8]) -> &[u8]
    ensures { result.now ≡ strip_bom text.now }
{
    match text {
        [0xEF, 0xBB, 0xBF, rest @ ..] => rest,
        _ => text,
    }
}

/// The line after this byte of a line, which lies after the byte `before`.
fn line_after(line: u64, before: u8, byte: u8) -> u64
    requires { line < 2 ^ 64 - 1 }
    ensures line { result ≡ line_after line before byte }
    ensures near { result ≤ line + 1 }
{
    if byte == b'\r' || (byte == b'\n' && before != b'\r') {
        line + 1
    } else {
        line
    }
}
