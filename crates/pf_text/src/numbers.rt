ghost use Rattle.std.specs.Prelude.{◌≡◌, ◌++◌, ◌<◌, ◌^◌, IfSome, OnOk, OnErr};
ghost use Rattle.std.specs.Fmt.{decimal};
ghost use Rattle.pf_text.specs.Numbers.{number_of};

use itoa::Buffer;
use std::alloc::AllocError;

// The most digits that a number has.
const MOST_DIGITS: usize = 15;

/// Adds the digits of a number, of base 10, to a text.
///
/// # Errors
///
/// Where memory is refused: the text is as before.
pub fn push_number(text: &mut Vec<u8>, number: u64) -> Result<(), AllocError>
    ensures ok { OnOk result (text.new.items ≡ text.old.items ++ decimal number) }
    ensures err { OnErr result (text.new.items ≡ text.old.items) }
{
    let mut digits = Buffer::new();
    text.extend_from_slice(digits.format(number).as_bytes())
}

/// The number that a text is, where it is 1 to 15 ASCII digits and nothing else. Leading zeros are allowed.
#[tactic(auto, unfolding(crate::specs::Numbers::number_of))]
pub fn parse_number(text: &[u8]) -> Option<u64>
    ensures value { result ≡ number_of text.now }
    ensures small { IfSome result (λ number. number < 10 ^ 15) }
{
    if text.is_empty() || text.len() > MOST_DIGITS {
        return None;
    }
    let mut value = 0;
    for byte in text {
        if !byte.is_ascii_digit() {
            return None;
        }
        value = value * 10 + u64::from(*byte - b'0');
    }
    Some(value)
}
