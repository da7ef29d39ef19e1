ghost use Rattle.std.specs.Prelude.{◌≡◌, ◌==◌, length, take};
ghost use Rattle.csv.specs.Reading.{strip_bom};
ghost use Rattle.std.specs.List.{list_any};
ghost use Rattle.pf_script.specs.Check.Files.{is_binary, is_wide};

/// How many bytes of a file are looked at for such as no text has.
pub const LOOKED_AT: usize = 1024;

/// What a file is that is no script.
#[derive(Clone, Copy)]
pub(crate) enum FileKind {
    /// UTF-16 text.
    Wide,
    /// No text.
    Binary,
    /// Nothing.
    Empty,
    /// No record, but comments or empty lines.
    Blank,
}

impl FileKind {
    ghost use Rattle.std.specs.Prelude.{◌≡◌};
    ghost use Rattle.pf_script.specs.Check.Files.{kind_hint, kind_of, kind_text};

    /// What a file of these bytes is whose first record is bad, or that has none.
    pub fn of(script: &[u8], has_record: bool) -> Option<FileKind>
        ensures { result ≡ kind_of script.now has_record }
    {
        if is_wide(script) {
            return Some(FileKind::Wide);
        }
        if has_binary(front(script)) {
            return Some(FileKind::Binary);
        }
        if is_empty(script) {
            return Some(FileKind::Empty);
        }
        if has_record {
            return None;
        }
        Some(FileKind::Blank)
    }

    /// What is told of it.
    pub fn text(self) -> &'static str
        ensures { result.now ≡ kind_text self }
    {
        match self {
            FileKind::Wide => "it is UTF-16 text",
            FileKind::Binary => "it is no text",
            FileKind::Empty => "it is empty",
            FileKind::Blank => "it has no record",
        }
    }

    /// What would be right; nothing where nothing can be said.
    pub fn hint(self) -> &'static str
        ensures { result.now ≡ kind_hint self }
    {
        match self {
            FileKind::Wide => "save it as UTF-8",
            _ => "",
        }
    }
}

/// Whether a file begins with the mark of UTF-16.
fn is_wide(script: &[u8]) -> bool
    ensures { result ≡ is_wide script.now }
{
    script.starts_with(&[0xFF, 0xFE]) || script.starts_with(&[0xFE, 0xFF])
}

/// The bytes that are looked at.
fn front(script: &[u8]) -> &[u8]
    ensures { result.now ≡ take LOOKED_AT script.now }
{
    let end = LOOKED_AT.min(script.len());
    &script[..end]
}

/// Whether a byte is such as no text has.
fn is_binary(byte: u8) -> bool
    ensures { result ≡ is_binary byte }
{
    byte < 9 || byte >= 14 && byte <= 31
}

/// Whether one of these bytes is such as no text has.
fn has_binary(bytes: &[u8]) -> bool
    ensures { result ≡ list_any is_binary bytes.now }
{
    for byte in bytes {
        if is_binary(*byte) {
            return true;
        }
    }
    false
}

/// Whether a file has no byte, a byte order mark aside.
#[tactic(auto, unfolding(csv::specs::Reading::strip_bom))]
fn is_empty(script: &[u8]) -> bool
    ensures { result ≡ (length (strip_bom script.now) == 0) }
{
    match script {
        [] | [0xEF, 0xBB, 0xBF] => true,
        _ => false,
    }
}
