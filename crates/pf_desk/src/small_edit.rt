ghost use Rattle.std.specs.Prelude.{◌≡◌, IfSome};
ghost use Rattle.std.specs.Option.{is_some};
ghost use Rattle.pf_desk.specs.declared.command.Command.TheVariants.{Edit};
ghost use Rattle.pf_desk.specs.Small.{is_small_change, is_small_beside, is_small, number_named, change_of, answer_by, settled_of_edit};

use crate::command::Command;
use crate::reply::Fault;
use crate::settled::{Answer, Settled};
use pf_scenario::change::Change;
use pf_scenario::fault::EditFault;
use pf_scenario::packed_event::PackedEvent;

/// A change in small. The number of the event that it concerns stands beside it.
#[derive(Clone, Copy, Debug)]
enum SmallChange {
    Insert(PackedEvent),
    Alter(PackedEvent),
    Strike,
}

impl SmallChange {
    /// The change in small, where it has a small form and concerns the event of this number.
    fn of(change: &Change, id: u64) -> Option<Self>
        ensures some { is_some result ≡ is_small_change id change.now }
        ensures value { IfSome result (λ small. change_of id small ≡ change.now) }
    {
        match change {
            Change::Insert(event) => Some(SmallChange::Insert(PackedEvent::of(event)?)),
            Change::Alter(number, event) if *number == id => {
                Some(SmallChange::Alter(PackedEvent::of(event)?))
            }
            Change::Strike(number) if *number == id => Some(SmallChange::Strike),
            _ => None,
        }
    }

    /// The change, which concerns the event of this number.
    fn change(self, id: u64) -> Change
        ensures { result ≡ change_of id self }
    {
        match self {
            SmallChange::Insert(event) => Change::Insert(event.event()),
            SmallChange::Alter(event) => Change::Alter(id, event.event()),
            SmallChange::Strike => Change::Strike(id),
        }
    }
}

/// An edit that was made or has a fault, with its answer, in small.
#[derive(Clone, Copy, Debug)]
pub(crate) struct SmallEdit {
    change: SmallChange,
    strict: bool,

    /// Why it was refused, where it was.
    fault: Option<EditFault>,

    /// The number of the event concerned, and 0 where an insert was refused.
    id: u32,
}

const _: () = prove!(size_of::<SmallEdit>() == 32);

impl SmallEdit {
    /// The command with its answer in small, where it is an edit that was made or has a fault, and has a small form.
    pub(crate) fn of(settled: &Settled) -> Option<Self>
        ensures some { is_some result ≡ is_small settled.now }
        ensures value { IfSome result (λ small. settled_of_edit small ≡ settled.now) }
    {
        let Command::Edit { change, strict } = &settled.command else {
            return None;
        };
        match &settled.answer {
            Answer::Edited { id } => SmallEdit::beside(change, *strict, *id, None),
            Answer::Refused(Fault::BadEdit(fault)) => {
                SmallEdit::beside(change, *strict, number_named(change), Some(*fault))
            }
            Answer::Refused(_) => None,
        }
    }

    /// An edit of the event of this number in small, where it has a small form, with its fault.
    fn beside(change: &Change, strict: bool, id: u64, fault: Option<EditFault>) -> Option<Self>
        ensures some { is_some result ≡ is_small_beside id change.now }
        ensures value { IfSome result
            (λ small. settled_of_edit small ≡ record { command = Edit change.now strict; answer = answer_by id fault }) }
    {
        Some(SmallEdit {
            id: u32::try_from(id).ok()?,
            change: SmallChange::of(change, id)?,
            strict,
            fault,
        })
    }

    /// The command with its answer.
    pub(crate) fn settled(self) -> Settled
        ensures { result ≡ settled_of_edit self }
    {
        let id = self.id.into();
        let answer = match self.fault {
            Some(fault) => Answer::Refused(Fault::BadEdit(fault)),
            None => Answer::Edited { id },
        };
        Settled {
            command: Command::Edit {
                change: self.change.change(id),
                strict: self.strict,
            },
            answer,
        }
    }
}

/// The number of the event that the change names, and 0 where it names none.
fn number_named(change: &Change) -> u64
    ensures { result ≡ number_named change.now }
{
    match change {
        Change::Insert(_) => 0,
        Change::Alter(id, _) | Change::Strike(id) => *id,
    }
}
