ghost use Rattle.std.specs.Prelude.{◌≡◌};
ghost use Rattle.pf_script.specs.Plan.Heading.{heading_fault, is_plan_heading};

use crate::fields::Fields;
use crate::plan::fault::{Reason, RecordFault};
use crate::plan::number_fields::{expect_length, fault_at};

/// Whether a record begins a plan, where it is the first one: its first field is `plan`.
#[tactic(auto, unfolding(crate::specs::Plan::Heading::is_plan_heading))]
pub fn is_plan_heading(fields: &Fields) -> bool
    ensures { result ≡ is_plan_heading fields.now }
{
    fields.is_word(0, b"plan")
}

/// What is wrong with the heading of a plan, which is `plan,1`: how many fields it has, or else its version.
#[tactic(auto, unfolding(crate::specs::Plan::Heading::heading_fault))]
pub fn heading_fault(fields: &Fields) -> Option<RecordFault>
    ensures { result ≡ heading_fault fields.now }
{
    match expect_length(fields, 2, 2, Reason::Fields(2)) {
        Err(fault) => Some(fault),
        Ok(()) if fields.is_word(1, b"1") => None,
        Ok(()) => Some(fault_at(1, Reason::NoVersion)),
    }
}
