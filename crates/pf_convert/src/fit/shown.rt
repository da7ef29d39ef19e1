use crate::conversion::list_file::ListFile;
use crate::fit::exactness::Exactness;
use crate::fit::shown_task::ShownTask;
use crate::list::listed::Listed;
use crate::margins::margins::Margins;
use crate::plan::Plan;
use crate::quantum::Quantum;
use crate::terms::Terms;
use crate::words::arrivals::Arrivals;
use pf_vocabulary::names::unit::Unit;

/// The plan that is shown of a list, and what is told of it.
#[derive(Clone, Copy)]
pub struct Shown<'a, 'b> {
    /// The file of the list.
    pub file: &'a ListFile<'a>,
    /// The unit of times that carry none, where it is given.
    pub unit: Option<Unit>,
    /// What plans are made under.
    pub terms: Terms,
    /// Whether quanta are given.
    pub is_given: bool,
    /// How many quanta were tried.
    pub count: usize,
    /// The quantum of the plan.
    pub quantum: Quantum,
    /// The processors that the plan is to fit, up to 64.
    pub processors: u64,
    /// The plan.
    pub plan: &'a Plan,
    /// Its margins.
    pub margins: &'b Margins,
    /// Whether they are exact.
    pub exactness: Exactness,
    /// The tasks of the list.
    pub listed: &'a [Listed],
    /// The same with their slots and margins.
    pub tasks: &'b [ShownTask<'a>],
}

impl Shown<'_, '_> {
    ghost use Rattle.std.specs.Prelude.{◌≡◌};
    ghost use Rattle.pf_convert.specs.Fit.Shown.{any_response_of, is_fit, least_time_of, response_of};
    ghost use Rattle.pf_convert.specs.Margins.Times.{time_of};

    /// Whether the processors are enough.
    pub fn is_fit(&self) -> bool
        ensures { result ≡ is_fit self.now }
    {
        self.margins.processors <= self.processors
    }

    /// The time of a period, and of the slot in which a job may arrive before its release, in nanoseconds.
    fn time_of(&self, period: u64) -> u128
        ensures { result ≡ time_of self.now.terms.arrivals self.now.quantum.length period }
    {
        let slots = u128::from(period);
        let length = u128::from(self.quantum.length);
        match self.terms.arrivals {
            Arrivals::Aligned => slots * length,
            Arrivals::Any => (slots + 1) * length,
        }
    }

    /// Within how long a job of a task is done, in nanoseconds: of its release, or where jobs come at any time of its arrival.
    pub fn response(&self, task: ShownTask<'_>) -> u128
        ensures { result ≡ response_of self.now task.entry }
    {
        self.time_of(task.slots.period)
    }

    /// Within how long of any arrival it is done, in nanoseconds.
    pub fn any_response(&self, task: ShownTask<'_>) -> u128
        ensures { result ≡ any_response_of self.now task.entry }
    {
        (u128::from(task.slots.period) + 1) * u128::from(self.quantum.length)
    }

    /// The least time of a task, in nanoseconds, where there is one.
    pub fn least_time(&self, task: ShownTask<'_>) -> Option<u128>
        ensures { result ≡ least_time_of self.now task.entry }
    {
        match task.margin.least.slots() {
            Some(period) => Some(self.time_of(period)),
            None => None,
        }
    }
}
