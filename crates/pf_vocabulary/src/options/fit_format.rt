/// How a fit is told.
#[derive(Clone, Copy)]
pub enum FitFormat {
    /// As text.
    Text,
    /// As a JSON object.
    Json,
}

impl FitFormat {
    ghost use Rattle.std.specs.Prelude.{◌≡◌};
    ghost use Rattle.pf_vocabulary.specs.Options.FitFormats.{fit_format_named};

    /// The format of this name; none where it names none.
    pub fn named(name: &str) -> Option<FitFormat>
        ensures { result ≡ fit_format_named name.now }
    {
        match name {
            "text" => Some(FitFormat::Text),
            "json" => Some(FitFormat::Json),
            _ => None,
        }
    }
}
