ghost use Rattle.std.specs.Prelude.{◌≡◌};
ghost use Rattle.pf_cli.specs.Compared.{pair_noting};
ghost use Rattle.pf_cli.specs.Noted.{is_followed, noting_behind, noting_of, shown_range};

use pf_arguments::task::Task;
use pf_arguments::telling::Telling;
use pf_vocabulary::fault::ending::Ending;
use pf_vocabulary::fault::fault::Fault;
use pf_vocabulary::fault::status::Status;
use pf_vocabulary::options::format::Format;
use pf_vocabulary::options::slot_range::SlotRange;

/// What is to be told of a script after what a task answers to it.
#[derive(Clone, Copy)]
pub(crate) struct Noting {
    /// Whether messages of faults are whole.
    pub(crate) asked: bool,
    /// Whether its notes follow where the task was done.
    pub(crate) follows: bool,
    /// Whether messages have hints.
    pub(crate) hints: bool,
    /// The slots that the task was to show; none of a page, which shows all.
    pub(crate) range: Option<SlotRange>,
}

impl Noting {
    /// That of a task.
    pub(crate) fn of(telling: Telling, task: &Task) -> Noting
        ensures { result ≡ noting_of telling task.now }
    {
        Noting {
            asked: telling.whole,
            follows: is_followed(task) && telling.notes,
            hints: telling.notes,
            range: shown_range(task),
        }
    }

    /// The same after this answer: its notes do not follow where it tells of a mistake in what the words ask for.
    pub(crate) fn behind(self, answer: &Result<Ending, Fault>) -> Noting
        ensures { result ≡ noting_behind self answer.now }
    {
        match answer {
            Ok(ending) => Noting {
                asked: self.asked,
                follows: self.follows && ending.status != Status::BadWords,
                hints: self.hints,
                range: self.range,
            },
            Err(_) => self,
        }
    }

    /// That of one of two scripts.
    pub(crate) fn of_two(telling: Telling) -> Noting
        ensures { result ≡ pair_noting telling }
    {
        Noting {
            asked: telling.whole,
            follows: telling.notes,
            hints: telling.notes,
            range: Some(SlotRange::whole()),
        }
    }
}

/// Whether notes follow a task: those that carry a script out and tell of it have it so.
fn is_followed(task: &Task) -> bool
    ensures { result ≡ is_followed task.now }
{
    match task {
        Task::Run(..) | Task::RunTasks(..) | Task::Diff(..) | Task::Drill | Task::Why(_) => true,
        Task::Check | Task::CheckRun | Task::Convert(_) | Task::Fit(_) => false,
    }
}

/// The slots that a task is to show; none of a page, which shows all.
fn shown_range(task: &Task) -> Option<SlotRange>
    ensures { result ≡ shown_range task.now }
{
    match task {
        Task::Run(Format::Html, _) => None,
        Task::Run(format, _) | Task::RunTasks(format, _, _) => Some(format.range()),
        _ => Some(SlotRange::whole()),
    }
}
