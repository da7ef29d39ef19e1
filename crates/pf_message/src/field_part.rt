ghost use Rattle.std.specs.Prelude.{◌≡◌};
ghost use Rattle.csv.specs.Machine.{in_field};
ghost use Rattle.pf_text.specs.Rows.Places.{row_config};
ghost use Rattle.pf_message.specs.Positions.{commas_left, is_quoted, part_after, part_of};

/// Which part of a field of a record comes next.
#[derive(Clone, Copy)]
pub(crate) enum FieldPart {
    /// Its first byte.
    Start,
    /// A further byte of it.
    Plain,
    /// A further byte of one in quotes.
    Quoted,
    /// A byte after a quote in quotes.
    Closed,
}

impl FieldPart {
    /// The part after a byte; none where the record ends with it.
    pub fn after(self, byte: u8) -> Option<FieldPart>
        ensures { result ≡ part_after self byte }
    {
        match self {
            FieldPart::Start if byte == b'"' => Some(FieldPart::Quoted),
            FieldPart::Quoted if byte == b'"' => Some(FieldPart::Closed),
            FieldPart::Quoted => Some(FieldPart::Quoted),
            FieldPart::Closed if byte == b'"' => Some(FieldPart::Quoted),
            _ => after_plain(byte),
        }
    }

    /// Whether it is in quotes.
    pub fn is_quoted(self) -> bool
        ensures { result ≡ is_quoted self }
    {
        matches!(self, FieldPart::Quoted)
    }

    /// So many commas less the one before it, where it is the first byte of a field.
    pub fn commas_left(self, commas: usize) -> usize
        ensures { result ≡ commas_left commas self }
    {
        match self {
            FieldPart::Start => commas.saturating_sub(1),
            _ => commas,
        }
    }
}

/// The part after a byte that is not in quotes.
fn after_plain(byte: u8) -> Option<FieldPart>
    ensures { result ≡ part_of (in_field row_config byte).0 }
{
    match byte {
        b',' => Some(FieldPart::Start),
        b'\r' | b'\n' => None,
        _ => Some(FieldPart::Plain),
    }
}
