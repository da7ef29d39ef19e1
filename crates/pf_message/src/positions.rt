use crate::cursor::{Cursor, without_mark};
use crate::position::Position;
use std::marker::Model;

/// The positions of a text's fields, asked for line after line: one that is at or after the one before costs the way from there. Contracts
/// see the text.
#[derive(Drop)]
pub struct Positions<'a> {
    text: &'a [u8],
    // At the first byte of the line that was asked for last.
    cursor: Cursor<'a>,
    line: u64,
}

impl<'a> Model for Positions<'a> {
    ghost use Rattle.std.specs.Prelude.{List, ℕ, ◌≡◌};
    ghost use Rattle.pf_message.specs.Positions.{line_reading};

    ghost Value = { List ℕ };

    ghost view = { λ p. p.text.now };

    ghost invariant = { λ p. p.cursor ≡ line_reading p.text.now p.line };
}

impl<'a> Positions<'a> {
    ghost use Rattle.std.specs.Prelude.{◌≡◌};
    ghost use Rattle.pf_message.specs.Positions.{end_position, field_position, is_quote_open, line_reading};

    /// Those of a text. A byte order mark at its start does not count.
    #[tactic(auto, using(crate::proofs::Readings::first_line))]
    pub fn new(text: &'a [u8]) -> Self
        ensures { result ≡ text.now }
    {
        Positions {
            text,
            cursor: Cursor::new(without_mark(text)),
            line: 1,
        }
    }

    /// A reader at the first byte of a line.
    #[tactic(auto, using(crate::proofs::Readings::line_after))]
    fn at_line(&mut self, line: u64) -> Cursor<'a>
        ensures line { result ≡ line_reading self.old line }
        ensures text { self.new ≡ self.old }
    {
        if line < self.line {
            let mut cursor = Cursor::new(without_mark(self.text));
            cursor.go_to_line(line);
            return cursor;
        }
        self.cursor.go_to_line(line);
        self.line = line;
        self.cursor.again()
    }

    /// The first byte of a field, counted from 1, of the record that begins on this line; where `trims`, the first that is no blank. Of
    /// a field that is not there it is the end of the record: its line end, or the end of the text.
    pub fn field(&mut self, line: u64, number: usize, trims: bool) -> Position
        ensures field { result ≡ field_position self.old (record { line = line; number = number; trims = trims }) }
        ensures text { self.new ≡ self.old }
    {
        let mut cursor = self.at_line(line);
        cursor.pass_fields(number.saturating_sub(1));
        if trims {
            cursor.pass_blanks();
        }
        cursor.position()
    }

    /// The end of the text, which has this line.
    pub fn end(&mut self, line: u64) -> Position
        ensures end { result ≡ end_position self.old line }
        ensures text { self.new ≡ self.old }
    {
        let mut cursor = self.at_line(line);
        cursor.go_to_end();
        cursor.position()
    }

    /// Whether the text ends in quotes of the record that begins on this line.
    pub fn is_quote_open(&mut self, line: u64) -> bool
        ensures open { result ≡ is_quote_open self.old line }
        ensures text { self.new ≡ self.old }
    {
        let mut cursor = self.at_line(line);
        cursor.ends_in_quotes()
    }
}
