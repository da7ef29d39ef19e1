ghost use Rattle.std.specs.Prelude.{◌≡◌};

/// A value that has a form for C.
pub trait ForC: Copy {
    /// That form.
    type Raw: Copy;

    // the value in that form
    ghost raw: { Self → Self.Raw };

    /// The value in that form.
    fn for_c(self) -> Self::Raw
        ensures { result ≡ raw self };
}
