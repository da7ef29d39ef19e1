ghost use Rattle.std.specs.Prelude.{◌≡◌, ◌++◌, ℕ, List};
ghost use Rattle.pf_stream.specs.Dialogue.Scripts.{GrowsTo};
ghost use Rattle.pf_stream.specs.declared.dialogue.answers.Going.{Going};

use crate::dialogue::answers::{Answers, Going};

/// What answers lines, and has the script of the records that were good so far. That script is all that there is to keep of it.
pub trait Scripted: Answers {
    // its script
    ghost script: { Self → List ℕ };

    /// The script of the records that were good so far: lines, each with its line feed.
    fn script(&self) -> &[u8]
        ensures { result.now ≡ script self.now };

    // a line that is answered adds lines to the script, or nothing
    ghost grows: { (a : Self) (line text : List ℕ) (going : Going) (b : Self) → Self.answers a line text going b → GrowsTo (script a) (script b) };
}
