use crate::place::Place;
use crate::small_place::SmallPlace;

/// The places of a row, in one of the two forms in which rows are kept.
#[derive(Clone, Copy, Debug)]
pub(crate) enum Places<'a> {
    /// As a row has them to which picks are seated.
    Plain(&'a [Place]),
    /// In small.
    Small(&'a [SmallPlace]),
}
