use pf_desk::reply::Fault;

/// What a command came to.
#[derive(Clone, Copy)]
pub(crate) enum Outcome {
    /// It was done.
    Done,
    /// It was refused.
    Refused(Fault),
}
