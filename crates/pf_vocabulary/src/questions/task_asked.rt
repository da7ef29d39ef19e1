use crate::names::name::Name;

/// A task that is asked for.
#[derive(Drop)]
pub enum TaskAsked {
    /// By its number, 1 to 4,095.
    Number(u64),
    /// By its name.
    Named(Name),
}
