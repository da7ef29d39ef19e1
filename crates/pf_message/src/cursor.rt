ghost use Rattle.std.specs.Prelude.{◌≡◌, ◌≤◌, ◌<◌, ◌+◌, ◌-◌, ◌^◌};
ghost use Rattle.pf_message.specs.Positions.{is_line_rest, position_after};
ghost use Rattle.csv.specs.Reading.{strip_bom};

use crate::field_part::FieldPart;
use crate::position::Position;
use std::marker::Model;

/// Where a reader of a text is.
#[derive(Drop)]
pub(crate) struct Cursor<'a> {
    bytes: &'a [u8],
    at: usize,
    // The byte before, 0 at the start.
    before: u8,
    position: Position,
}

impl<'a> Model for Cursor<'a> {
    ghost use Rattle.std.specs.Prelude.{◌+◌, ◌≤◌, drop, length};
    ghost use Rattle.pf_message.specs.Positions.{Reading};

    ghost Value = { Reading };

    ghost view = { λ c. record { position = c.position; before = c.before; left = drop c.at c.bytes.now } };

    ghost invariant = { λ c. (c.at ≤ length c.bytes.now) × (c.position.line ≤ c.at + 1) × (c.position.column ≤ c.at + 1) };
}

impl<'a> Cursor<'a> {
    ghost use Rattle.std.specs.Prelude.{◌≡◌, true};
    ghost use Rattle.pf_message.specs.declared.field_part.FieldPart.TheVariants.{Start};
    ghost use Rattle.pf_message.specs.Positions.{byte_passed, ends_in_quotes, field_start, first_byte, line_start, reading_of, shown_start, text_end};

    /// At the first byte of a text.
    pub fn new(bytes: &'a [u8]) -> Self
        ensures { result ≡ reading_of bytes.now }
    {
        Cursor {
            bytes,
            at: 0,
            before: 0,
            position: Position { line: 1, column: 1 },
        }
    }

    /// The next byte; none at the end.
    fn next_byte(&self) -> Option<u8>
        ensures { result ≡ first_byte self.now.left }
    {
        self.bytes.get(self.at).copied()
    }

    /// Goes one byte on; nowhere at the end.
    #[tactic(auto, using(crate::proofs::Readings::passed, crate::proofs::Readings::rest_after))]
    fn advance(&mut self)
        ensures { self.new ≡ byte_passed self.old }
    {
        let Some(byte) = self.next_byte() else {
            return;
        };
        self.position = position_after(self.position, self.before, byte);
        self.before = byte;
        self.at += 1;
    }

    /// Goes to the first byte of a line, or to the end where there is no such line; nowhere where that lies behind.
    #[tactic(auto, using(crate::proofs::Readings::line_ends, crate::proofs::Readings::line_stops, crate::proofs::Readings::line_goes_on, crate::proofs::Readings::passed, crate::proofs::Readings::fewer_left))]
    pub fn go_to_line(&mut self, line: u64)
        ensures { self.new ≡ line_start line self.old }
    {
        while let Some(byte) = self.next_byte() {
            if self.position.line >= line && !is_line_rest(self.before, byte) {
                return;
            }
            self.advance();
        }
    }

    /// Goes from the first byte of a field after so many commas between fields, or to the end of the record where it has no more.
    #[tactic(auto, using(crate::proofs::Readings::field_ends, crate::proofs::Readings::field_stops, crate::proofs::Readings::field_goes_on, crate::proofs::Readings::passed, crate::proofs::Readings::fewer_left))]
    pub fn pass_fields(&mut self, commas: usize)
        ensures { self.new ≡ field_start commas self.old }
    {
        let mut left = commas;
        let mut part = FieldPart::Start;
        while let Some(byte) = self.next_byte() {
            if left == 0 {
                return;
            }
            let Some(next) = part.after(byte) else {
                return;
            };
            left = next.commas_left(left);
            part = next;
            self.advance();
        }
    }

    /// Goes to the first byte that is no space or tab.
    #[tactic(auto, using(crate::proofs::Readings::shown_ends, crate::proofs::Readings::shown_stops, crate::proofs::Readings::shown_goes_on, crate::proofs::Readings::passed, crate::proofs::Readings::fewer_left))]
    pub fn pass_blanks(&mut self)
        ensures { self.new ≡ shown_start true self.old }
    {
        while let Some(byte) = self.next_byte() {
            if byte != b' ' && byte != b'\t' {
                return;
            }
            self.advance();
        }
    }

    /// Goes to the end of the text.
    #[tactic(auto, using(crate::proofs::Readings::end_ends, crate::proofs::Readings::end_goes_on, crate::proofs::Readings::passed, crate::proofs::Readings::fewer_left))]
    pub fn go_to_end(&mut self)
        ensures { self.new ≡ text_end self.old }
    {
        while self.next_byte().is_some() {
            self.advance();
        }
    }

    /// Whether the text ends in quotes of the record that begins here. Goes to where that is known.
    #[tactic(auto, using(crate::proofs::Readings::quotes_end, crate::proofs::Readings::quotes_stop, crate::proofs::Readings::quotes_go_on, crate::proofs::Readings::passed, crate::proofs::Readings::fewer_left))]
    pub fn ends_in_quotes(&mut self) -> bool
        ensures { result ≡ ends_in_quotes Start self.old.left }
    {
        let mut part = FieldPart::Start;
        while let Some(byte) = self.next_byte() {
            let Some(next) = part.after(byte) else {
                return false;
            };
            part = next;
            self.advance();
        }
        part.is_quoted()
    }

    /// Another reader at the same byte.
    pub fn again(&self) -> Cursor<'a>
        ensures { result ≡ self.now }
    {
        Cursor {
            bytes: self.bytes,
            at: self.at,
            before: self.before,
            position: self.position,
        }
    }

    /// Its position.
    pub fn position(&self) -> Position
        ensures { result ≡ self.now.position }
    {
        self.position
    }
}

/// Whether a byte is none of its line: the line feed of CR LF.
fn is_line_rest(before: u8, byte: u8) -> bool
    ensures { result ≡ is_line_rest before byte }
{
    before == b'\r' && byte == b'\n'
}

/// The position after a byte, which stands after another one.
fn position_after(position: Position, before: u8, byte: u8) -> Position
    requires line { position.line < 2 ^ 64 - 1 }
    requires column { position.column < 2 ^ 64 - 1 }
    ensures next { result ≡ position_after position before byte }
    ensures line { result.line ≤ position.line + 1 }
    ensures column { result.column ≤ position.column + 1 }
{
    if is_line_rest(before, byte) {
        return position;
    }
    if byte == b'\r' || byte == b'\n' {
        return Position {
            line: position.line + 1,
            column: 1,
        };
    }
    Position {
        line: position.line,
        column: position.column + 1,
    }
}

/// The text without a byte order mark at its start.
#[tactic(auto, unfolding(csv::specs::Reading::strip_bom))]
pub(crate) fn without_mark(text: &[u8]) -> &[u8]
    ensures { result.now ≡ strip_bom text.now }
{
    match text {
        [0xEF, 0xBB, 0xBF, rest @ ..] => rest,
        _ => text,
    }
}
