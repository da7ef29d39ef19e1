ghost use Rattle.std.specs.Prelude.{◌≡◌};
ghost use Rattle.std.specs.List.{list_all};
ghost use Rattle.pf_vocabulary.specs.Names.Text.{is_letter_first, is_text, is_text_byte};

use std::marker::Model;

/// The bytes of the longest name.
const LONGEST: usize = 24;

/// A name: 1 to 24 bytes of `A`-`Z` `a`-`z` `0`-`9` `_` `-` `.` `+` and space, a letter first and no space last. Nothing of it
/// needs escaping in CSV, JSON, SVG or HTML. Contracts see it as its bytes.
#[derive(Drop)]
pub struct Name {
    bytes: [u8; LONGEST],
    length: usize,
}

impl Model for Name {
    ghost use Rattle.std.specs.Prelude.{ℕ, List, ◌≡◌, ◌≤◌, take, true};
    ghost use Rattle.pf_vocabulary.specs.Names.Text.{is_text};

    ghost Value = { List ℕ };

    ghost view = { λ n. take n.length n.bytes };

    ghost invariant = { λ n. (n.length ≤ 24) × (is_text (take n.length n.bytes) ≡ true) };
}

impl Name {
    ghost use Rattle.std.specs.Prelude.{◌≡◌, true};
    ghost use Rattle.std.specs.Str.{bytes_eq};
    ghost use Rattle.pf_vocabulary.specs.Names.Text.{is_text, name_in};

    /// The name that a field is, where it is one.
    #[tactic(auto, using(crate::proofs::NamesLemmas::Texts::is_short))]
    pub fn new(field: &[u8]) -> Option<Name>
        ensures { result ≡ name_in field.now }
    {
        if !is_text(field) {
            return None;
        }
        let mut bytes = [0; LONGEST];
        bytes[..field.len()].copy_from_slice(field);
        Some(Name {
            bytes,
            length: field.len(),
        })
    }

    /// Its bytes, all of them ASCII.
    pub fn as_bytes(&self) -> &[u8]
        ensures bytes { result.now ≡ self.now }
        ensures text { is_text result.now ≡ true }
    {
        &self.bytes[..self.length]
    }

    /// Its text.
    pub fn as_str(&self) -> &str
        ensures { result.now ≡ self.now }
    {
        str::from_utf8(self.as_bytes()).unwrap_or("")
    }

    /// Whether it is these bytes.
    pub fn is(&self, field: &[u8]) -> bool
        ensures { result ≡ bytes_eq self.now field.now }
    {
        self.as_bytes() == field
    }
}

/// Whether a field is a name.
#[tactic(auto, unfolding(crate::specs::Names::Text::is_text))]
pub fn is_text(field: &[u8]) -> bool
    ensures { result ≡ is_text field.now }
{
    field.len() <= LONGEST
        && is_letter_first(field)
        && has_text_bytes(field)
        && !field.ends_with(b" ")
}

/// Whether the first byte of a field is a letter: such a field is a name or a label in place of a number.
pub fn is_letter_first(field: &[u8]) -> bool
    ensures { result ≡ is_letter_first field.now }
{
    match field {
        [first, ..] => first.is_ascii_alphabetic(),
        [] => false,
    }
}

/// Whether a name may have these bytes.
fn has_text_bytes(field: &[u8]) -> bool
    ensures { result ≡ list_all is_text_byte field.now }
{
    field.iter().all(|byte| is_text_byte(*byte))
}

/// Whether a name may have this byte.
fn is_text_byte(byte: u8) -> bool
    ensures { result ≡ is_text_byte byte }
{
    byte.is_ascii_alphanumeric() || matches!(byte, b'_' | b'-' | b'.' | b'+' | b' ')
}
