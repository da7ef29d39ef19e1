ghost use Rattle.std.specs.Prelude.{◌≡◌, ◌<◌, ℕ, List, [], length, get_or};

use crate::pair_text::PairText;

/// The fields of a record, each of which is written when its turn comes.
pub trait Fields {
    // the fields
    ghost texts: { Self → List (List ℕ) };

    /// How many there are.
    fn count(&self) -> usize
        ensures { result ≡ length (texts self.now) };

    /// Writes the field at a place in place of the text.
    fn write(&self, at: usize, text: &mut PairText)
        requires { at < length (texts self.now) }
        ensures { text.new ≡ get_or (texts self.now) at [] };
}
