ghost use Rattle.std.specs.Prelude.{IfSome};
ghost use Rattle.pf_shelf.specs.Fitting.{FitsWhere};

use counted_slot::Fits;

/// A value of which there can be one more.
pub trait Again: Fits {
    /// One more, which fits wherever this one does. None where there can be no more of it.
    fn again(&self) -> Option<Self>
        ensures { IfSome result (FitsWhere Self.fits self.now) };
}
