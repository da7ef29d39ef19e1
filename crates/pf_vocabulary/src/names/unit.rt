ghost use Rattle.std.specs.Prelude.{◌≡◌};

/// A unit of time.
#[derive(Clone, Copy)]
pub enum Unit {
    /// `ns`
    Nanosecond,
    /// `us`
    Microsecond,
    /// `ms`
    Millisecond,
    /// `s`
    Second,
}

impl Unit {
    ghost use Rattle.pf_vocabulary.specs.Names.Slots.{unit_named, unit_word};

    /// The unit that a field names: `ns`, `us`, `ms` or `s`.
    #[tactic(auto, unfolding(crate::specs::Names::Slots::unit_named))]
    pub fn named(field: &[u8]) -> Option<Unit>
        ensures { result ≡ unit_named field.now }
    {
        if field == b"ns".as_slice() {
            Some(Unit::Nanosecond)
        } else if field == b"us".as_slice() {
            Some(Unit::Microsecond)
        } else if field == b"ms".as_slice() {
            Some(Unit::Millisecond)
        } else if field == b"s".as_slice() {
            Some(Unit::Second)
        } else {
            None
        }
    }

    /// The word that names it.
    pub fn word(self) -> &'static str
        ensures { result.now ≡ unit_word self }
    {
        match self {
            Unit::Nanosecond => "ns",
            Unit::Microsecond => "us",
            Unit::Millisecond => "ms",
            Unit::Second => "s",
        }
    }
}
