ghost use Rattle.std.specs.Prelude.{◌≡◌};
ghost use Rattle.std.specs.List.{list_all};
ghost use Rattle.pf_code.specs.Symbol.{is_symbol, is_symbol_byte};
ghost use Rattle.pf_vocabulary.specs.Names.Text.{is_letter_first};

use pf_vocabulary::names::name::is_letter_first;
use std::marker::Model;

/// The bytes of the longest symbol.
const LONGEST: usize = 31;

/// What the names of a C table begin with: a letter, and up to 30 letters, digits and `_`. Contracts see it as its bytes.
#[derive(Drop)]
pub struct Symbol {
    bytes: [u8; LONGEST],
    length: usize,
}

impl Model for Symbol {
    ghost use Rattle.std.specs.Prelude.{ℕ, List, ◌≡◌, ◌≤◌, take, true};
    ghost use Rattle.pf_code.specs.Symbol.{is_symbol};

    ghost Value = { List ℕ };

    ghost view = { λ s. take s.length s.bytes };

    ghost invariant = { λ s. (s.length ≤ 31) × (is_symbol (take s.length s.bytes) ≡ true) };
}

impl Symbol {
    ghost use Rattle.std.specs.Prelude.{◌≡◌, true};
    ghost use Rattle.pf_code.specs.Symbol.{is_symbol, symbol_in, usual_symbol};

    /// The symbol that a word is, where it is one.
    #[tactic(auto, using(crate::proofs::Symbols::is_short))]
    pub fn new(word: &[u8]) -> Option<Symbol>
        ensures { result ≡ symbol_in word.now }
    {
        if !is_symbol(word) {
            return None;
        }
        let mut bytes = [0; LONGEST];
        bytes[..word.len()].copy_from_slice(word);
        Some(Symbol {
            bytes,
            length: word.len(),
        })
    }

    /// The usual one, `pfair`.
    pub fn usual() -> Symbol
        ensures { result ≡ usual_symbol }
    {
        match Symbol::new(b"pfair") {
            Some(symbol) => symbol,
            None => unreachable!(),
        }
    }

    /// Its bytes, all of them ASCII.
    pub fn as_bytes(&self) -> &[u8]
        ensures bytes { result.now ≡ self.now }
        ensures symbol { is_symbol result.now ≡ true }
    {
        &self.bytes[..self.length]
    }
}

/// Whether a word is a symbol.
#[tactic(auto, unfolding(crate::specs::Symbol::is_symbol))]
fn is_symbol(word: &[u8]) -> bool
    ensures { result ≡ is_symbol word.now }
{
    word.len() <= LONGEST && is_letter_first(word) && has_symbol_bytes(word)
}

/// Whether a symbol may have these bytes.
fn has_symbol_bytes(word: &[u8]) -> bool
    ensures { result ≡ list_all is_symbol_byte word.now }
{
    word.iter().all(|byte| is_symbol_byte(*byte))
}

/// Whether a symbol may have this byte.
fn is_symbol_byte(byte: u8) -> bool
    ensures { result ≡ is_symbol_byte byte }
{
    byte.is_ascii_alphanumeric() || byte == b'_'
}
