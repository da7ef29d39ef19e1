ghost use Rattle.pf_trace.specs.Laws.{CoursesAreOfTheRun};

/// What the events tell of a task by the slots in which it ran and by its delays is what the run says: the window of each of its
/// subtasks, shifted by the delays in force, and its lag after the first t slots.
pub fn courses_are_of_the_run()
    ensures { CoursesAreOfTheRun }
{}
