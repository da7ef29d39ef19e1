//! How the program ends where nobody reads its output any more.
ghost use Rattle.std.specs.Prelude.{◌≡◌};
ghost use Rattle.pf_cli.specs.Noted.{fails_on_some, gone_diff, gone_of};

use pf_arguments::task::Task;
use pf_vocabulary::fault::status::Status;
use pf_vocabulary::options::diff_options::DiffOptions;
use pf_vocabulary::options::fail_on::FailOn;

/// The status of a task then: that of a failed stream where a status tells an answer, else that of what was done.
pub(crate) fn gone_of(task: &Task) -> Status
    ensures { result ≡ gone_of task.now }
{
    match task {
        Task::Check | Task::CheckRun | Task::Fit(_) | Task::Convert(_) => Status::StreamFailed,
        Task::Run(_, fail_on) | Task::RunTasks(_, _, fail_on) if fails_on_some(*fail_on) => {
            Status::StreamFailed
        }
        Task::Diff(_, options) => gone_diff(*options),
        _ => Status::Done,
    }
}

/// Whether a run may fail on anything.
fn fails_on_some(fail_on: FailOn) -> bool
    ensures { result ≡ fails_on_some fail_on }
{
    fail_on.refused || fail_on.denied || fail_on.missed
}

/// The same of a diff.
pub(crate) fn gone_diff(options: DiffOptions) -> Status
    ensures { result ≡ gone_diff options }
{
    if options.exit_code {
        return Status::StreamFailed;
    }
    Status::Done
}
