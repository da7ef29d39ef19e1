ghost use Rattle.pf_laws.specs.Examples.Admissions.{WorkedAdmission};
ghost use Rattle.pf_laws.specs.Examples.Calendars.{WorkedCalendar};
ghost use Rattle.pf_laws.specs.Examples.Heaps.{WorkedHeaps};
ghost use Rattle.pf_laws.specs.Examples.Order.{WorkedOrder};
ghost use Rattle.pf_laws.specs.Examples.Rows.{WorkedRows};
ghost use Rattle.pf_laws.specs.Examples.Scenarios.{WorkedScenarios};
ghost use Rattle.pf_laws.specs.Examples.Weights.{WorkedWeights};
ghost use Rattle.pf_laws.specs.Examples.Windows.{WorkedWindows};

/// The limits of a base, and weights over the base 462: their units, which are heavy, and which are refused.
pub fn worked_weights_are_told()
    ensures { WorkedWeights }
{}

/// Releases, deadlines, bits and group deadlines of five weights.
pub fn worked_windows_are_told()
    ensures { WorkedWindows }
{}

/// Six keys and their order.
pub fn worked_order_is_told()
    ensures { WorkedOrder }
{}

/// Which joins, leaves and delays are denied, and why.
pub fn worked_admission_is_told()
    ensures { WorkedAdmission }
{}

/// The limits of settings, what changes make of a scenario, and which are refused.
pub fn worked_scenarios_are_told()
    ensures { WorkedScenarios }
{}

/// Which processor runs which pick after a slot.
pub fn worked_rows_are_told()
    ensures { WorkedRows }
{}

/// What heaps hold after inserts, a meld, a pop, a removal and a meld into the main heap.
pub fn worked_heaps_are_told()
    ensures { WorkedHeaps }
{}

/// What a calendar holds after keys were put, in a later slot, and after two were taken.
pub fn worked_calendar_is_told()
    ensures { WorkedCalendar }
{}
