ghost use Rattle.std.specs.Prelude.{◌≡◌};
ghost use Rattle.csv.specs.Machine.{step, in_field, start_field, start_record};
ghost use Rattle.pf_text.specs.Rows.Places.{is_between, row_config};
ghost use Rattle.pf_convert.specs.List.Quotes.{is_quoted, state_of};

/// Where in a record a list is after one of its bytes.
#[derive(Clone, Copy)]
pub enum ReadingState {
    /// Between two records, or before the first one.
    Between,
    /// Between two records, after a carriage return.
    AfterReturn,
    /// At the start of a further field.
    FieldStart,
    /// In a plain field.
    InField,
    /// In a field in quotes.
    InQuotes,
    /// After a quote in a field in quotes.
    AfterQuote,
    /// In a comment, which only a line feed ends.
    InComment,
}

impl ReadingState {
    /// The state one byte on.
    pub fn after(self, byte: u8) -> ReadingState
        ensures { state_of result ≡ (step row_config (state_of self) byte).0 }
    {
        match self {
            ReadingState::Between => at_start(byte),
            ReadingState::AfterReturn => match byte {
                b'\n' => ReadingState::Between,
                _ => at_start(byte),
            },
            ReadingState::FieldStart => at_field(byte),
            ReadingState::InField => in_field(byte),
            ReadingState::InQuotes => match byte {
                b'"' => ReadingState::AfterQuote,
                _ => ReadingState::InQuotes,
            },
            ReadingState::AfterQuote => match byte {
                b'"' => ReadingState::InQuotes,
                _ => in_field(byte),
            },
            ReadingState::InComment => match byte {
                b'\n' => ReadingState::Between,
                _ => ReadingState::InComment,
            },
        }
    }

    /// Whether a field in quotes is under way.
    pub fn is_quoted(self) -> bool
        ensures { result ≡ is_quoted (state_of self) }
    {
        matches!(self, ReadingState::InQuotes)
    }

    /// Whether no record is under way.
    pub fn is_between(self) -> bool
        ensures { result ≡ is_between (state_of self) }
    {
        matches!(
            self,
            ReadingState::Between | ReadingState::AfterReturn | ReadingState::InComment
        )
    }
}

/// After a byte of a plain field.
fn in_field(byte: u8) -> ReadingState
    ensures { state_of result ≡ (in_field row_config byte).0 }
{
    match byte {
        b',' => ReadingState::FieldStart,
        b'\r' => ReadingState::AfterReturn,
        b'\n' => ReadingState::Between,
        _ => ReadingState::InField,
    }
}

/// After the first byte of a field.
fn at_field(byte: u8) -> ReadingState
    ensures { state_of result ≡ (start_field row_config byte).0 }
{
    if byte == b'"' {
        ReadingState::InQuotes
    } else {
        in_field(byte)
    }
}

/// After a byte that may be the first one of a record.
fn at_start(byte: u8) -> ReadingState
    ensures { state_of result ≡ (start_record row_config byte).0 }
{
    if byte == b'\r' || byte == b'\n' {
        ReadingState::Between
    } else if byte == b'#' {
        ReadingState::InComment
    } else {
        at_field(byte)
    }
}
