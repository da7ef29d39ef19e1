ghost use Rattle.std.specs.Prelude.{◌≡◌};
ghost use Rattle.pf_vocabulary.specs.Look.Looks.{style_named};

/// How the tasks of a picture are drawn.
#[derive(Clone, Copy)]
pub enum Style {
    /// The windows of a task in two rows in turn, over a strip of its lag.
    Strips,
    /// The windows of a task one below the other.
    Stairs,
}

impl Style {
    /// The style of this name, `strips` or `stairs`; `None` where the text is neither.
    pub fn named(name: &str) -> Option<Style>
        ensures { result ≡ style_named name.now }
    {
        match name {
            "strips" => Some(Style::Strips),
            "stairs" => Some(Style::Stairs),
            _ => None,
        }
    }
}
