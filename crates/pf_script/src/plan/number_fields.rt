ghost use Rattle.std.specs.Prelude.{◌≡◌, ◌≤◌, ◌<◌, ◌^◌, IfOk};
ghost use Rattle.pf_script.specs.Plan.Parsing.{fault_at, number_or, number_within, of_length};

use crate::fields::Fields;
use crate::plan::fault::{Reason, RecordFault};

/// Where so many fields are expected, least to most.
pub(crate) fn expect_length(
    fields: &Fields,
    least: usize,
    most: usize,
    reason: Reason,
) -> Result<(), RecordFault>
    requires { (least ≤ 10) × (most ≤ 10) }
    ensures { result ≡ of_length fields.now least most reason }
{
    let length = fields.len();
    if length < least {
        return Err(fault_at(length, reason));
    }
    if length > most {
        return Err(fault_at(most, reason));
    }
    Ok(())
}

/// The number that is expected at a place, for this reason.
#[tactic(auto, unfolding(crate::specs::Plan::Parsing::number_or))]
pub(crate) fn parse_number(
    reason: Reason,
    fields: &Fields,
    place: usize,
) -> Result<u64, RecordFault>
    requires { place ≤ 10 }
    ensures { result ≡ number_or reason fields.now place }
{
    fields.number(place).ok_or(fault_at(place, reason))
}

/// The number of 1 to `most` that is expected at a place.
#[tactic(auto, unfolding(crate::specs::Plan::Parsing::number_within))]
pub(crate) fn parse_within(
    reason: Reason,
    fields: &Fields,
    place: usize,
    most: u64,
) -> Result<u64, RecordFault>
    requires { place ≤ 10 }
    ensures number { result ≡ number_within reason fields.now place most }
    ensures within { IfOk result (λ n. (1 ≤ n) × (n ≤ most)) }
{
    let number = parse_number(reason, fields, place)?;
    if number == 0 || number > most {
        return Err(fault_at(place, Reason::Outside { number, most }));
    }
    Ok(number)
}

/// A fault of the field at a place from 0.
pub(crate) fn fault_at(place: usize, reason: Reason) -> RecordFault
    requires { place ≤ 10 }
    ensures { result ≡ fault_at place reason }
{
    RecordFault {
        field: place + 1,
        reason,
    }
}
