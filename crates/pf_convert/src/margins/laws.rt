ghost use Rattle.pf_convert.specs.Margins.Times.{TimesGivePeriods};
ghost use Rattle.pf_convert.specs.Margins.Laws.{LeastDivisorIsServed, LeastPeriodIsServed, LongerSwitchIsUnserved, LowerPeriodIsUnserved, MoreWorkIsUnserved, MostSwitchIsServed, MostWorkIsServed};

/// With the most work of a task in place of its own there is a plan, over whatever base, and the processors carry it.
pub fn most_work_is_served()
    ensures { MostWorkIsServed }
{}

/// With its least period in place of its own, where there is a base for that, too.
pub fn least_period_is_served()
    ensures { LeastPeriodIsServed }
{}

/// With the least of the base's divisors in place of it too.
pub fn least_divisor_is_served()
    ensures { LeastDivisorIsServed }
{}

/// With the longest switch too.
pub fn most_switch_is_served()
    ensures { MostSwitchIsServed }
{}

/// Where the base is the least common multiple of the periods, no plan is served in which a task works longer.
pub fn more_work_is_unserved()
    ensures { MoreWorkIsUnserved }
{}

/// Nor one in which a task has a lower period.
pub fn lower_period_is_unserved()
    ensures { LowerPeriodIsUnserved }
{}

/// Nor one with a longer switch.
pub fn longer_switch_is_unserved()
    ensures { LongerSwitchIsUnserved }
{}

/// The time of a period is the least within which a job may be due whose task gets it, and a task that is told it gets it.
pub fn times_give_periods()
    ensures { TimesGivePeriods }
{}
