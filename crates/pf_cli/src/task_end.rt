use pf_commands::ran::Ran;
use pf_vocabulary::fault::ending::Ending;
use pf_vocabulary::fault::fault::Fault;

/// How a task ended.
#[derive(Drop)]
pub(crate) enum TaskEnd {
    /// A run was done, and left the desk that carried the script out.
    Ran(Ran),
    /// Any other task was done, or one was not.
    Other(Result<Ending, Fault>),
}
