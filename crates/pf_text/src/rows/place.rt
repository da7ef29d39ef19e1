ghost use Rattle.std.specs.Prelude.{◌≡◌};
ghost use Rattle.csv.specs.Machine.{step, in_field, start_field, start_record};
ghost use Rattle.pf_text.specs.Rows.Places.{is_between, row_config, state_of};

/// Where in a record a text is after one of its bytes.
#[derive(Clone, Copy)]
pub enum Place {
    /// Between two records, or before the first one.
    Between,
    /// Between two records, after a carriage return.
    BehindReturn,
    /// At the start of a further field.
    FieldStart,
    /// In a plain field.
    InField,
    /// In a field in quotes.
    InQuotes,
    /// After a quote in a field in quotes.
    BehindQuote,
    /// In a comment, which only a line feed ends.
    InComment,
}

impl Place {
    /// The place one byte on.
    pub fn after(self, byte: u8) -> Place
        ensures { state_of result ≡ (step row_config (state_of self) byte).0 }
    {
        match self {
            Place::Between => at_start(byte),
            Place::BehindReturn => match byte {
                b'\n' => Place::Between,
                _ => at_start(byte),
            },
            Place::FieldStart => at_field(byte),
            Place::InField => in_field(byte),
            Place::InQuotes => match byte {
                b'"' => Place::BehindQuote,
                _ => Place::InQuotes,
            },
            Place::BehindQuote => match byte {
                b'"' => Place::InQuotes,
                _ => in_field(byte),
            },
            Place::InComment => match byte {
                b'\n' => Place::Between,
                _ => Place::InComment,
            },
        }
    }

    /// Whether no record is under way.
    pub fn is_between(self) -> bool
        ensures { result ≡ is_between (state_of self) }
    {
        matches!(
            self,
            Place::Between | Place::BehindReturn | Place::InComment
        )
    }
}

/// After a byte of a plain field.
fn in_field(byte: u8) -> Place
    ensures { state_of result ≡ (in_field row_config byte).0 }
{
    match byte {
        b',' => Place::FieldStart,
        b'\r' => Place::BehindReturn,
        b'\n' => Place::Between,
        _ => Place::InField,
    }
}

/// After the first byte of a field.
fn at_field(byte: u8) -> Place
    ensures { state_of result ≡ (start_field row_config byte).0 }
{
    if byte == b'"' {
        Place::InQuotes
    } else {
        in_field(byte)
    }
}

/// After a byte that may be the first one of a record.
fn at_start(byte: u8) -> Place
    ensures { state_of result ≡ (start_record row_config byte).0 }
{
    if byte == b'\r' || byte == b'\n' {
        Place::Between
    } else if byte == b'#' {
        Place::InComment
    } else {
        at_field(byte)
    }
}
