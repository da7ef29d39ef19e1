ghost use Rattle.std.specs.Prelude.{◌≡◌, ◌++◌, OnOk};
ghost use Rattle.std.specs.List.{flat_map, list_all};
ghost use Rattle.pf_message.specs.Shell.{is_safe, is_safe_byte, quoted_byte, shell_word};

use std::alloc::AllocError;

/// Whether a byte needs no quotes: letters, digits and `_./=,:+@%-`.
fn is_safe_byte(byte: u8) -> bool
    ensures { result ≡ is_safe_byte byte }
{
    match byte {
        b'a'..=b'z' | b'A'..=b'Z' | b'0'..=b'9' => true,
        b'_' | b'.' | b'/' | b'=' | b',' | b':' | b'+' | b'@' | b'%' | b'-' => true,
        _ => false,
    }
}

/// Whether these bytes need no quotes.
fn are_safe(bytes: &[u8]) -> bool
    ensures { result ≡ list_all is_safe_byte bytes.now }
{
    for byte in bytes {
        if !is_safe_byte(*byte) {
            return false;
        }
    }
    true
}

/// Whether a word needs no quotes.
fn is_safe(word: &[u8]) -> bool
    ensures { result ≡ is_safe word.now }
{
    !word.is_empty() && are_safe(word)
}

/// Appends bytes as they stand within single quotes: for each quote these end, it stands by itself, and others begin.
fn push_quoted(text: &mut Vec<u8>, bytes: &[u8]) -> Result<(), AllocError>
    ensures { OnOk result (text.new.items ≡ text.old.items ++ flat_map quoted_byte bytes.now) }
{
    for byte in bytes {
        if *byte == b'\'' {
            text.extend_from_slice(b"'\\''")?;
        } else {
            text.push(*byte)?;
        }
    }
    Ok(())
}

/// Appends a word as a POSIX shell reads it: in single quotes where it has a byte other than letters, digits and `_./=,:+@%-`, or
/// none.
///
/// # Errors
///
/// Where memory is refused: the text is given up.
pub fn push_shell_word(text: &mut Vec<u8>, word: &[u8]) -> Result<(), AllocError>
    ensures { OnOk result (text.new.items ≡ text.old.items ++ shell_word word.now) }
{
    if is_safe(word) {
        return text.extend_from_slice(word);
    }
    text.push(b'\'')?;
    push_quoted(text, word)?;
    text.push(b'\'')?;
    Ok(())
}
