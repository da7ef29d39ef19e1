ghost use Rattle.std.specs.Prelude.{◌≡◌};
ghost use Rattle.pf_tally.specs.Figures.{extended, extremes_of, with_value};

/// The least and the greatest of some numbers.
#[derive(Clone, Copy, Debug, PartialEq, Eq)]
pub struct Extremes {
    /// The least of them.
    pub least: i64,
    /// The greatest of them.
    pub greatest: i64,
}

impl Extremes {
    /// Those of x alone.
    pub(crate) fn of(x: i64) -> Self
        ensures { result ≡ record { least = x; greatest = x } }
    {
        Extremes {
            least: x,
            greatest: x,
        }
    }

    /// Those with x among them.
    pub(crate) fn with(self, x: i64) -> Self
        ensures { result ≡ with_value self x }
    {
        Extremes {
            least: self.least.min(x),
            greatest: self.greatest.max(x),
        }
    }
}

/// Those with x among them, where there may have been none.
fn extended(extremes: Option<Extremes>, x: i64) -> Option<Extremes>
    ensures { result ≡ extended extremes x }
{
    match extremes {
        None => Some(Extremes::of(x)),
        Some(extremes) => Some(extremes.with(x)),
    }
}

/// The least and the greatest of these numbers, if there are any.
pub(crate) fn extremes_of(values: &[i64]) -> Option<Extremes>
    ensures { result ≡ extremes_of values.now }
{
    let mut extremes = None;
    for value in values {
        extremes = extended(extremes, *value);
    }
    extremes
}
