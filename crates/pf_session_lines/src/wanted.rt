use pf_vocabulary::options::format::Format;
use pf_vocabulary::questions::question::Question;

/// What is asked to be shown of a script.
#[derive(Drop)]
pub enum Wanted {
    /// What a run of it gives in this format, whose slots are those of its range.
    Report(Format),
    /// Why a slot went as it did.
    Why(Question),
    /// Whether it fits, as text.
    Fit,
}

impl Wanted {
    ghost use Rattle.std.specs.Prelude.{◌≡◌};
    ghost use Rattle.pf_session_lines.specs.Values.{is_value};

    /// Whether what is shown is one JSON value.
    pub fn is_value(&self) -> bool
        ensures { result ≡ is_value self.now }
    {
        matches!(
            self,
            Wanted::Report(Format::Report | Format::Full | Format::Trace)
        )
    }
}
