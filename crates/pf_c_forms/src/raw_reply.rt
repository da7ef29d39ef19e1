ghost use Rattle.std.specs.Prelude.{◌≡◌};
ghost use Rattle.pf_c_forms.specs.Replied.{status_of, told_of, status_of_fault, told_of_fault};

use crate::status::{AT_HORIZON, OK, WOULD_DENY};
use pf_desk::reply::{Fault, Reply};
use pf_scenario::fault::EditFault;

/// What a status alone does not say of a reply. A number is 0 where the reply has none.
#[repr(C)]
#[derive(Clone, Copy)]
pub struct RawReply {
    /// The number of the event concerned, where the change was made; of the one that would be denied, with `WOULD_DENY`.
    pub event: u64,
    /// Why, by its number in the table of refusals: of a bad weight 2 to 4, of a denial 20 to 23.
    pub reason: u64,
}

/// The status of a fault: its number in the table of refusals.
pub fn fault_status(fault: Fault) -> u32
    ensures { result ≡ status_of_fault fault }
{
    match fault {
        Fault::BadEdit(fault) => fault.code() as u32,
        Fault::AtHorizon => AT_HORIZON,
        Fault::WouldDeny { .. } => WOULD_DENY,
    }
}

/// The status of a reply.
pub fn status(reply: &Reply) -> u32
    ensures { result ≡ status_of reply.now }
{
    match reply {
        Reply::Edited { .. } | Reply::Stepped { .. } => OK,
        Reply::Refused(fault) => fault_status(*fault),
    }
}

impl RawReply {
    /// What is told of a reply beside its status.
    pub fn of(reply: &Reply) -> RawReply
        ensures { result ≡ told_of reply.now }
    {
        match reply {
            Reply::Edited { id } => RawReply {
                event: *id,
                reason: 0,
            },
            Reply::Stepped { .. } => RawReply {
                event: 0,
                reason: 0,
            },
            Reply::Refused(fault) => RawReply::of_fault(*fault),
        }
    }

    /// What is told of a fault beside its status.
    fn of_fault(fault: Fault) -> RawReply
        ensures { result ≡ told_of_fault fault }
    {
        match fault {
            Fault::WouldDeny { id, denial } => RawReply {
                event: id,
                reason: denial.code(),
            },
            Fault::BadEdit(EditFault::BadWeight(fault)) => RawReply {
                event: 0,
                reason: fault.code(),
            },
            _ => RawReply {
                event: 0,
                reason: 0,
            },
        }
    }
}
