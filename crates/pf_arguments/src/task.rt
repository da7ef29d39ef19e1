use pf_convert::words::conversion::Conversion;
use pf_convert::words::fit_asked::FitAsked;
use pf_vocabulary::options::diff_options::DiffOptions;
use pf_vocabulary::options::fail_on::FailOn;
use pf_vocabulary::options::format::Format;
use pf_vocabulary::questions::question::Question;
use pf_vocabulary::task_words::task_words::TaskWords;

/// What the program can be asked to do with a script, or with a list of tasks.
#[derive(Drop)]
pub enum Task {
    /// To run it in this format, and to fail on this.
    Run(Format, FailOn),
    /// To run it in this format, to show these tasks alone, and to fail on this.
    RunTasks(Format, TaskWords, FailOn),
    /// To check it.
    Check,
    /// To check it, and where it has no fault to carry it out and tell what was refused, denied and missed.
    CheckRun,
    /// To tell what its records changed from this one on, or the last one alone. They are counted from 1.
    Diff(Option<u64>, DiffOptions),
    /// To drill it.
    Drill,
    /// To tell whether it fits, or a list of tasks does.
    Fit(FitAsked),
    /// To convert it, a list of tasks in time.
    Convert(Conversion),
    /// To tell why a slot of its run went as it did.
    Why(Question),
}
