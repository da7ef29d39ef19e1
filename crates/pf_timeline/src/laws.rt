ghost use Rattle.pf_timeline.specs.Laws.{TimelinesRestOnPast};

/// A timeline that stands for a scenario and its first n slots stands for each one with the same settings and the same
/// events below n.
pub fn timelines_rest_on_the_past()
    ensures { TimelinesRestOnPast }
{}
