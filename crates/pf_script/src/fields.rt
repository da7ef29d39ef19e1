ghost use Rattle.std.specs.Prelude.{◌≡◌};
ghost use Rattle.std.specs.Str.{bytes_eq};

use csv::ByteRecord;
use pf_text::numbers::parse_number;
use std::marker::Model;

/// Whether a field is this word, byte for byte. Most that are not differ in their length or their first byte.
pub(crate) fn is_same(field: &[u8], word: &[u8]) -> bool
    ensures { result ≡ bytes_eq field.now word.now }
{
    if field.len() != word.len() {
        return false;
    }
    if field.get(0) != word.get(0) {
        return false;
    }
    field == word
}

/// The fields of a record from one of them on.
#[derive(Drop)]
pub struct Fields<'a> {
    row: &'a ByteRecord,
    at: usize,
}

impl<'a> Model for Fields<'a> {
    ghost use Rattle.std.specs.Prelude.{◌≤◌, ℕ, List, length, drop};
    ghost use Rattle.csv.specs.Records.{fields_of};

    ghost Value = { List (List ℕ) };

    ghost view = { λ f. drop f.at (fields_of f.row.now) };

    ghost invariant = { λ f. f.at ≤ length (fields_of f.row.now) };
}

impl<'a> Fields<'a> {
    ghost use Rattle.std.specs.Prelude.{◌≡◌, ◌==◌, ◌<◌, ◌^◌, length, drop, IfSome};
    ghost use Rattle.csv.specs.Records.{fields_of};
    ghost use Rattle.pf_script.specs.Fields.{field, number, is_word, is_record_of};

    /// All fields of a record.
    pub fn new(row: &'a ByteRecord) -> Self
        ensures { result ≡ fields_of row.now }
    {
        Fields { row, at: 0 }
    }

    /// How many fields there are.
    pub fn len(&self) -> usize
        ensures { result ≡ length self.now }
    {
        self.row.len() - self.at
    }

    /// Whether there is no field.
    pub fn is_empty(&self) -> bool
        ensures { result ≡ (length self.now == 0) }
    {
        self.len() == 0
    }

    /// The fields after the first `count`, none where there are no more than that.
    pub fn rest(&self, count: usize) -> Fields<'a>
        ensures { result ≡ drop count self.now }
    {
        let end = self.row.len();
        let at = if count < end - self.at {
            self.at + count
        } else {
            end
        };
        Fields { row: self.row, at }
    }

    /// The field at a place from 0, with no byte past the last one.
    pub fn field(&self, place: usize) -> &'a [u8]
        ensures { result.now ≡ field self.now place }
    {
        let end = self.row.len();
        if place >= end - self.at {
            return &[];
        }
        self.row.get(self.at + place).unwrap_or(&[])
    }

    /// The number of the field at a place: 1 to 15 ASCII digits and nothing else, leading zeros allowed. `None` where
    /// the field is no number or there is none.
    pub fn number(&self, place: usize) -> Option<u64>
        ensures value { result ≡ number self.now place }
        ensures small { IfSome result (λ number. number < 10 ^ 15) }
    {
        parse_number(self.field(place))
    }

    /// Whether the field at a place is this word, byte for byte.
    #[tactic(auto, unfolding(crate::specs::Fields::is_word))]
    pub fn is_word(&self, place: usize, word: &[u8]) -> bool
        ensures { result ≡ is_word self.now place word.now }
    {
        is_same(self.field(place), word)
    }

    /// Whether there are so many fields, the first of them this word.
    pub fn is_of(&self, word: &[u8], count: usize) -> bool
        ensures { result ≡ is_record_of self.now word.now count }
    {
        self.len() == count && self.is_word(0, word)
    }
}
