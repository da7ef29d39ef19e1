ghost use Rattle.std.specs.Prelude.{◌≡◌, None, IfSome};
ghost use Rattle.pf_c_api.specs.declared.notice.Notice.{Notice};
ghost use Rattle.pf_c_api.specs.Notices.{change_sentence, denial_sentence, name_of, number_of, sentence_of, weight_sentence};

use pf_admit::denial::Denial;
use pf_c_forms::status::{
    ALREADY_OPEN, AT_HORIZON, BAD_RECORD, BAD_SETTINGS, BUSY, NO_MEMORY, NO_PLACE, NOT_OPEN,
    NOT_YET, NOTHING, OK, OUT_OF_RANGE, PENDING, TOO_SHORT, UNKNOWN_KIND, WOULD_DENY,
};
use pf_scenario::fault::EditFault;
use pf_weight::fault::WeightFault;

/// What a number tells C: a status, or a reason.
#[derive(Clone, Copy)]
pub enum Notice {
    /// The call did what it says.
    Ok,
    /// Why a weight is refused.
    Weight(WeightFault),
    /// Why a change is refused.
    Change(EditFault),
    /// Why an event is denied.
    Denial(Denial),
    /// No slot is left below the horizon.
    AtHorizon,
    /// A strict change would leave a denial.
    WouldDeny,
    /// Settings out of their limits.
    BadSettings,
    /// The handle has no desk.
    NotOpen,
    /// The handle has a desk already.
    AlreadyOpen,
    /// Memory was refused.
    NoMemory,
    /// A kind or a number that is none.
    UnknownKind,
    /// Slots that cannot be shown.
    OutOfRange,
    /// The caller's room is too short.
    TooShort,
    /// A record that is none of a script's.
    BadRecord,
    /// Another caller is at the shared desk.
    Busy,
    /// A quantum lies untaken.
    Pending,
    /// There is no quantum to take.
    Nothing,
    /// The slot is not stepped yet.
    NotYet,
    /// Each place of a shared desk is given.
    NoPlace,
}

impl Notice {
    /// What this number tells. That of a bad weight tells no more of the weight.
    pub fn numbered(number: u32) -> Option<Notice>
        ensures some { IfSome result (λ notice. number_of notice ≡ number) }
        ensures none { result ≡ None → (notice : Notice) → number_of notice ≡ number → ⊥ }
    {
        match number {
            OK => Some(Notice::Ok),
            2 => Some(Notice::Weight(WeightFault::ZeroCost)),
            3 => Some(Notice::Weight(WeightFault::CostAbovePeriod)),
            4 => Some(Notice::Weight(WeightFault::PeriodNotInBase)),
            10 => Some(Notice::Change(EditFault::EventNotFound)),
            11 => Some(Notice::Change(EditFault::SlotOutOfRange)),
            12 => Some(Notice::Change(EditFault::TaskOutOfRange)),
            13 => Some(Notice::Change(EditFault::EarlyOutOfRange)),
            14 => Some(Notice::Change(EditFault::DelayOutOfRange)),
            15 => Some(Notice::Change(EditFault::BadWeight(WeightFault::ZeroCost))),
            16 => Some(Notice::Change(EditFault::JoinTwice)),
            17 => Some(Notice::Change(EditFault::LeaveTwice)),
            18 => Some(Notice::Change(EditFault::TooManyEvents)),
            19 => Some(Notice::Change(EditFault::NumbersSpent)),
            20 => Some(Notice::Denial(Denial::OverCapacity)),
            21 => Some(Notice::Denial(Denial::NotInside)),
            22 => Some(Notice::Denial(Denial::TooEarly)),
            23 => Some(Notice::Denial(Denial::Released)),
            24 => Some(Notice::Change(EditFault::CountOutOfRange)),
            AT_HORIZON => Some(Notice::AtHorizon),
            WOULD_DENY => Some(Notice::WouldDeny),
            BAD_SETTINGS => Some(Notice::BadSettings),
            NOT_OPEN => Some(Notice::NotOpen),
            ALREADY_OPEN => Some(Notice::AlreadyOpen),
            NO_MEMORY => Some(Notice::NoMemory),
            UNKNOWN_KIND => Some(Notice::UnknownKind),
            OUT_OF_RANGE => Some(Notice::OutOfRange),
            TOO_SHORT => Some(Notice::TooShort),
            BAD_RECORD => Some(Notice::BadRecord),
            BUSY => Some(Notice::Busy),
            PENDING => Some(Notice::Pending),
            NOTHING => Some(Notice::Nothing),
            NOT_YET => Some(Notice::NotYet),
            NO_PLACE => Some(Notice::NoPlace),
            _ => None,
        }
    }

    /// Its name, in the table of refusals where that has it.
    pub fn name(self) -> &'static str
        ensures { result.now ≡ name_of self }
    {
        match self {
            Notice::Ok => "Ok",
            Notice::Weight(fault) => fault.name(),
            Notice::Change(fault) => fault.name(),
            Notice::Denial(denial) => denial.name(),
            Notice::AtHorizon => "AtHorizon",
            Notice::WouldDeny => "WouldDeny",
            Notice::BadSettings => "BadSettings",
            Notice::NotOpen => "NotOpen",
            Notice::AlreadyOpen => "AlreadyOpen",
            Notice::NoMemory => "NoMemory",
            Notice::UnknownKind => "UnknownKind",
            Notice::OutOfRange => "OutOfRange",
            Notice::TooShort => "TooShort",
            Notice::BadRecord => "BadRecord",
            Notice::Busy => "Busy",
            Notice::Pending => "Pending",
            Notice::Nothing => "Nothing",
            Notice::NotYet => "NotYet",
            Notice::NoPlace => "NoPlace",
        }
    }

    /// What it says, for people to read.
    pub fn sentence(self) -> &'static str
        ensures { result.now ≡ sentence_of self }
    {
        match self {
            Notice::Ok => "the call did what it says",
            Notice::Weight(fault) => weight_sentence(fault),
            Notice::Change(fault) => change_sentence(fault),
            Notice::Denial(denial) => denial_sentence(denial),
            Notice::AtHorizon => "no slot is left",
            Notice::WouldDeny => "an event would be denied",
            Notice::BadSettings => "the settings are out of their limits",
            Notice::NotOpen => "the handle has no desk",
            Notice::AlreadyOpen => "the handle has a desk already",
            Notice::NoMemory => "out of memory",
            Notice::UnknownKind => "the kind is unknown",
            Notice::OutOfRange => "not within the slots stepped",
            Notice::TooShort => "the room is too short",
            Notice::BadRecord => "a record is none of a script's",
            Notice::Busy => "another caller is at the desk",
            Notice::Pending => "a quantum was not taken yet",
            Notice::Nothing => "no quantum is there to take",
            Notice::NotYet => "the slot is not stepped yet",
            Notice::NoPlace => "each place is given",
        }
    }
}

/// What a fault of a weight says.
fn weight_sentence(fault: WeightFault) -> &'static str
    ensures { result.now ≡ weight_sentence fault }
{
    match fault {
        WeightFault::ZeroCost => "the cost is 0",
        WeightFault::CostAbovePeriod => "the cost is above the period",
        WeightFault::PeriodNotInBase => "the period does not divide the base",
    }
}

/// What a fault of a change says.
fn change_sentence(fault: EditFault) -> &'static str
    ensures { result.now ≡ change_sentence fault }
{
    match fault {
        EditFault::EventNotFound => "no event has this number",
        EditFault::SlotOutOfRange => "the slot is not below the horizon",
        EditFault::TaskOutOfRange => "the task is not 1 to 4095",
        EditFault::EarlyOutOfRange => "early is above 1048576",
        EditFault::DelayOutOfRange => "the delay is not 1 to 1048576",
        EditFault::CountOutOfRange => "the count is not 1 to the number of processors",
        EditFault::BadWeight(_) => "the cost and the period are no weight",
        EditFault::JoinTwice => "another event joins the task",
        EditFault::LeaveTwice => "another event leaves the task",
        EditFault::TooManyEvents => "65535 events are held",
        EditFault::NumbersSpent => "all event numbers are spent",
    }
}

/// What a denial says.
fn denial_sentence(denial: Denial) -> &'static str
    ensures { result.now ≡ denial_sentence denial }
{
    match denial {
        Denial::OverCapacity => "the load would be above the cap",
        Denial::NotInside => "the task is not inside",
        Denial::TooEarly => "the task's last subtask does not let it go yet",
        Denial::Released => "the task's next subtask is released already",
    }
}
