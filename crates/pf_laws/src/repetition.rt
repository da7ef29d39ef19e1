//! Where every task joins in slot 0 and stays, one span of slots is the whole schedule: it repeats for ever, and what the
//! first span doesn't miss is never missed.

ghost use Rattle.pf_laws.specs.Repetition.Laws.{TheseAreSpans, SpanDecides, NoneBeyond, RepeatsAfter, FirstSpanIsAll, SpansEndEven};

/// The base is a span, which is so many slots that each task is owed a whole number of quanta in them. So is any common
/// multiple of the periods, and any multiple of a span.
pub fn these_are_spans()
    ensures { TheseAreSpans }
{}

/// One span decides: no window is missed in its slots just where the load is within the processors, and just where every lag
/// is 0 at its end.
pub fn a_span_decides()
    ensures { SpanDecides }
{}

/// Where no window is missed in the first span, none is missed in any slot of the run.
pub fn no_window_is_missed_beyond_a_span()
    ensures { NoneBeyond }
{}

/// Where the load is within the processors, the slot a span after slot t has the picks of slot t, in the same order, each
/// greater by what its task is owed in a span.
pub fn the_schedule_repeats()
    ensures { RepeatsAfter }
{}

/// Where the load is within the processors, each slot of a run, however long, has the picks of its place in the first span,
/// in the same order, each greater by what its task is owed in the spans between.
pub fn the_first_span_is_the_whole_schedule()
    ensures { FirstSpanIsAll }
{}

/// Where the load is within the processors, every lag is 0 at every multiple of a span.
pub fn each_span_ends_even()
    ensures { SpansEndEven }
{}
