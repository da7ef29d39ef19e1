use crate::places::Places;
use crate::replies::Replies;
use pf_scenario::scenario::Scenario;

/// How far a script was gone over again.
#[derive(Drop)]
pub(crate) struct Course<'a> {
    /// The places of the records to come.
    pub(crate) places: Places<'a>,
    /// The entries of their commands.
    pub(crate) replies: Replies<'a>,
    /// The scenario after the records so far.
    pub(crate) scenario: Scenario,
}
