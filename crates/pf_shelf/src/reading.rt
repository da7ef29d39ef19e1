//! What a writer and readers do at one place of a shelf.
ghost use Rattle.std.specs.Prelude.{◌≡◌, ◌⊎◌, IfSome, IfErr};
ghost use Rattle.counted_slot.specs.declared.TheConstants.{FREE, PRESENT};

use crate::again::Again;
use counted_slot::{Claim, Counted, FREE, Fits, ONE_READER, PRESENT, TAKEN};

/// The word of a place with a value that has more readers than a shelf lets in at once.
const CROWDED: u64 = 1 << 20;

/// Puts this into a place whose word is `word`.
///
/// # Errors
///
/// Where it no longer is: the value comes back.
fn exchange<X: Fits + Drop>(place: &Counted<Option<X>>, word: u64, value: X) -> Result<(), X>
    requires word { (word ≡ FREE) ⊎ (word ≡ PRESENT) }
    requires fits { X.fits place.now value }
    ensures { IfErr result (λ back. back ≡ value) }
{
    let (found, claim) = place.turn(word, TAKEN);
    if found != word {
        claim.done();
        return Err(value);
    }
    drop(claim.put(Some(value), PRESENT));
    Ok(())
}

/// Puts this into a place.
///
/// # Errors
///
/// Where somebody reads the place, or writes there: the value comes back.
pub(crate) fn put<X: Fits + Drop>(place: &Counted<Option<X>>, value: X) -> Result<(), X>
    requires { X.fits place.now value }
    ensures { IfErr result (λ back. back ≡ value) }
{
    match place.load() {
        FREE => exchange(place, FREE, value),
        PRESENT => exchange(place, PRESENT, value),
        _ => Err(value),
    }
}

/// One more of what lies in a place. None where it is empty, a writer has it, or another reader came between.
pub(crate) fn read<X: Again + Drop>(place: &Counted<Option<X>>) -> Option<X>
    ensures { IfSome result (X.fits place.now) }
{
    let word = place.load();
    if word >= CROWDED || word % 4 != PRESENT {
        return None;
    }
    let (found, claim) = place.turn(word, word + ONE_READER);
    if found != word {
        claim.done();
        return None;
    }
    let value = again(&claim);
    claim.leave();
    value
}

/// One more of what is being read.
fn again<X: Again + Drop>(claim: &Claim<'_, Option<X>>) -> Option<X>
    requires { claim.now.right ≡ 1 }
    ensures { IfSome result (X.fits claim.now.tag) }
{
    match claim.get() {
        None => None,
        Some(value) => value.again(),
    }
}
