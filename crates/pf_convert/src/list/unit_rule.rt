use pf_vocabulary::names::unit::Unit;

/// In which unit the times of a list are that carry none.
#[derive(Clone, Copy)]
pub struct UnitRule {
    /// This one.
    pub assumed: Unit,
    /// Whether a time above 0 has to carry one.
    pub is_needed: bool,
}
