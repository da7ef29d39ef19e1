use crate::list::heading::Heading;
use pf_vocabulary::names::unit::Unit;

/// The file of a list of tasks.
#[derive(Clone, Copy)]
pub struct ListFile<'a> {
    /// Its name.
    pub name: &'a [u8],
    /// The bytes of the list.
    pub text: &'a [u8],
    /// Where the columns are.
    pub heading: Heading,
    /// The unit in which times are shown.
    pub unit: Unit,
}
