ghost use Rattle.pf_why_text.specs.Examples.{WorkedSlots};

/// The texts of the worked slots, byte for byte.
pub fn worked_slots_are_told()
    ensures { WorkedSlots }
{}
