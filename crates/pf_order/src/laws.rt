ghost use Rattle.pf_order.specs.Laws.{KeysAreOrdered};

/// The laws of the order: it is total, no key precedes itself, it is transitive, of two keys of different tasks
/// exactly one precedes the other, and the test is the published order: of the keys of any two subtasks, with no limit
/// on weights, shifts or numbers, it is PD2 on their shifted deadlines, their bits and the group deadlines of heavy
/// tasks. Told apart by the subtask's number too, only equal keys tie.
pub fn keys_are_ordered()
    ensures { KeysAreOrdered }
{}
