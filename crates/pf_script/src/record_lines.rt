ghost use Rattle.std.specs.Prelude.{◌≡◌, ◌≤◌, ◌<◌, ◌+◌, ◌-◌, ◌^◌, length};
ghost use Rattle.csv.specs.Reading.{strip_bom};
ghost use Rattle.pf_script.specs.Places.{line_after};

use crate::place::Place;

/// The lines of a text on which its records begin, one after another, and then the line of its end.
#[derive(Drop)]
pub struct RecordLines<'a> {
    bytes: &'a [u8],
    at: usize,
    place: Place,
    // The line of the next byte, and the byte before it.
    line: u64,
    before: u8,
    ended: bool,
    // How many lines were passed that are not looked for yet.
    passed: u64,
    ghost counted: { line ≤ at + 1 },
    ghost within: { at ≤ length bytes.now },
}

impl<'a> RecordLines<'a> {
    ghost use Rattle.std.specs.Prelude.{◌≡◌, ◌+◌, ◌-◌, ◌<◌, ◌^◌, false, length};
    ghost use Rattle.pf_script.specs.Places.{record_lines, line_at, lines_behind, line_if};
    ghost use Rattle.pf_script.specs.Left.{lines_ahead, lines_left};

    /// The lines of all records of a script. A byte order mark before the first one is passed over.
    pub fn new(script: &'a [u8]) -> Self
        ensures lines { lines_left result ≡ record_lines script.now }
        ensures passed { result.passed ≡ 0 }
    {
        RecordLines {
            bytes: without_mark(script),
            at: 0,
            place: Place::Between,
            line: 1,
            before: 0,
            ended: false,
            passed: 0,
        }
    }

    /// Passes the line of the next record. It is looked for once a later one is asked for, so that who asks for none pays for
    /// none.
    pub fn pass(&mut self)
        requires { self.old.passed < 2 ^ 64 - 1 }
        ensures rest { lines_left self.new ≡ lines_behind (lines_left self.old) }
        ensures passed { self.new.passed ≡ self.old.passed + 1 }
    {
        self.passed += 1;
    }

    /// The line on which the next record begins, and after the last one that of the end; 0 after that.
    pub fn next_line(&mut self) -> u64
        ensures line { result ≡ line_at (lines_left self.old) }
        ensures rest { lines_left self.new ≡ lines_behind (lines_left self.old) }
        ensures passed { self.new.passed ≡ 0 }
    {
        while self.passed > 0 {
            self.find_line();
            self.passed -= 1;
        }
        self.find_line()
    }

    /// The line on which a record next begins after the byte where it stands, 0 after that of the end.
    fn find_line(&mut self) -> u64
        ensures line { result ≡ line_at (lines_ahead self.old) }
        ensures rest { lines_ahead self.new ≡ lines_behind (lines_ahead self.old) }
        ensures passed { self.new.passed ≡ self.old.passed }
    {
        if self.ended {
            return 0;
        }
        while self.at < self.bytes.len() {
            let line = self.line;
            if self.begins_record() {
                return line;
            }
        }
        self.ended = true;
        self.line
    }

    /// Goes one byte on, and says whether a record begins with it.
    fn begins_record(&mut self) -> bool
        requires some { self.old.at < length self.old.bytes.now }
        requires going { self.old.ended ≡ false }
        ensures lines { lines_ahead self.old ≡ line_if result self.old.line (lines_ahead self.new) }
        ensures one { self.new.at ≡ self.old.at + 1 }
        ensures bytes { self.new.bytes ≡ self.old.bytes }
        ensures going { self.new.ended ≡ false }
        ensures passed { self.new.passed ≡ self.old.passed }
    {
        let byte = self.bytes[self.at];
        let was_between = self.place.is_between();
        self.place = self.place.after(byte);
        self.line = line_after(self.line, self.before, byte);
        self.before = byte;
        self.at += 1;
        was_between && !self.place.is_between()
    }
}

/// The text without a byte order mark at its start.
#[tactic(auto, unfolding(csv::specs::Reading::strip_bom))]
fn without_mark(text: &[u8]) -> &[u8]
    ensures { result.now ≡ strip_bom text.now }
{
    match text {
        [0xEF, 0xBB, 0xBF, rest @ ..] => rest,
        _ => text,
    }
}

/// The line after this byte of a line, which lies after the byte `before`.
fn line_after(line: u64, before: u8, byte: u8) -> u64
    requires { line < 2 ^ 64 - 1 }
    ensures line { result ≡ line_after line before byte }
    ensures near { result ≤ line + 1 }
{
    if byte == b'\r' || (byte == b'\n' && before != b'\r') {
        line + 1
    } else {
        line
    }
}
