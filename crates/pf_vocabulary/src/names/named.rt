use crate::names::name::Name;

/// A task and the name that it has.
#[derive(Drop)]
pub struct Named {
    /// The task's number.
    pub task: u64,
    /// Its name.
    pub name: Name,
}
