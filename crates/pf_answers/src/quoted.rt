ghost use Rattle.std.specs.Prelude.{◌≡◌, ◌<◌, ◌++◌, ◌∷◌, [], OnOk};
ghost use Rattle.std.specs.Char.{digit_char};
ghost use Rattle.std.specs.List.{flat_map};
ghost use Rattle.json.specs.Print.{escape_byte, quoted};

use std::alloc::AllocError;

/// The digit of a number below 16.
fn digit(number: u8) -> u8
    requires { number < 16 }
    ensures { result ≡ digit_char number }
{
    if number < 10 {
        b'0' + number
    } else {
        b'a' + (number - 10)
    }
}

/// Appends a backslash and a letter.
fn push_short(text: &mut Vec<u8>, letter: u8) -> Result<(), AllocError>
    ensures { OnOk result (text.new.items ≡ text.old.items ++ 92 ∷ letter ∷ []) }
{
    text.push(b'\\')?;
    text.push(letter)?;
    Ok(())
}

/// Appends what stands for a byte in a string.
#[tactic(auto, unfolding(json::specs::Print::escape_byte))]
fn push_byte(text: &mut Vec<u8>, byte: u8) -> Result<(), AllocError>
    ensures { OnOk result (text.new.items ≡ text.old.items ++ escape_byte byte) }
{
    match byte {
        b'"' | b'\\' => push_short(text, byte),
        8 => push_short(text, b'b'),
        12 => push_short(text, b'f'),
        b'\n' => push_short(text, b'n'),
        b'\r' => push_short(text, b'r'),
        b'\t' => push_short(text, b't'),
        0..32 => {
            text.extend_from_slice(b"\\u00")?;
            text.push(digit(byte / 16))?;
            text.push(digit(byte % 16))?;
            Ok(())
        }
        _ => {
            text.push(byte)?;
            Ok(())
        }
    }
}

/// Appends the content of a string.
fn push_escaped(text: &mut Vec<u8>, bytes: &[u8]) -> Result<(), AllocError>
    ensures { OnOk result (text.new.items ≡ text.old.items ++ flat_map escape_byte bytes.now) }
{
    for byte in bytes {
        push_byte(text, *byte)?;
    }
    Ok(())
}

/// Appends bytes as a string of JSON.
pub(crate) fn push_quoted(text: &mut Vec<u8>, bytes: &[u8]) -> Result<(), AllocError>
    ensures { OnOk result (text.new.items ≡ text.old.items ++ quoted bytes.now) }
{
    text.push(b'"')?;
    push_escaped(text, bytes)?;
    text.push(b'"')?;
    Ok(())
}
