use crate::timed::Timed;
use pf_vocabulary::names::name::Name;
use pf_vocabulary::names::unit::Unit;

/// A task of a list.
#[derive(Drop)]
pub struct Listed {
    /// The line on which its record begins, counted from 1.
    pub line: u64,
    /// Its name, which no other task of the list has.
    pub name: Name,
    /// Its times.
    pub times: Timed,
    /// The unit that its `every` carries, if it does.
    pub unit: Option<Unit>,
}
