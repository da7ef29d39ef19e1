ghost use Rattle.std.specs.Prelude.{◌≡◌, ◌≤◌, drop, length};
ghost use Rattle.csv.specs.Records.{trim_end, trim_start, trimmed};

/// How many bytes of white space a field begins with.
fn blanks_before(field: &[u8]) -> usize
    ensures value { drop result field.now ≡ trim_start field.now }
    ensures bound { result ≤ length field.now }
{
    'bytes: for at in 0..field.len() {
        if !field[at].is_ascii_whitespace() {
            return at;
        }
    }
    field.len()
}

/// Where the white space at the end of a field begins.
fn blanks_after(field: &[u8]) -> usize
    ensures value { result ≡ trim_end field.now }
    ensures bound { result ≤ length field.now }
{
    let length = field.len();
    'bytes: for count in 0..length {
        if !field[length - count - 1].is_ascii_whitespace() {
            return length - count;
        }
    }
    0
}

/// A field without the white space at its ends.
pub(crate) fn trimmed(field: &[u8]) -> &[u8]
    ensures { result.now ≡ trimmed field.now }
{
    let field = &field[blanks_before(field)..];
    &field[..blanks_after(field)]
}
