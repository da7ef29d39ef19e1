ghost use Rattle.std.specs.Prelude.{◌≡◌, IfOk};
ghost use Rattle.pf_desk.specs.Views.{lent_reply};

use crate::reply_view::ReplyView;
use pf_admit::denial::Denial;
use pf_place::row::Row;
use pf_scenario::fault::EditFault;
use std::alloc::AllocError;

/// Why a command was refused.
#[derive(Clone, Copy, Debug, PartialEq, Eq)]
pub enum Fault {
    /// The change has a fault.
    BadEdit(EditFault),
    /// A step with now at the horizon.
    AtHorizon,
    /// A strict edit after which the run so far would have denials: the first in run order.
    WouldDeny {
        /// The number of the event that would be denied.
        id: u64,
        /// Why.
        denial: Denial,
    },
}

/// What a command is answered.
#[derive(Debug, Drop)]
pub enum Reply {
    /// The change was made.
    Edited {
        /// The number of the event concerned.
        id: u64,
    },
    /// The slot was taken.
    Stepped {
        /// The slot.
        slot: u64,
        /// Who runs where in it.
        row: Row,
    },
    /// Nothing changed but the history.
    Refused(Fault),
}

impl Reply {
    /// The reply, lent: a copy of it copies no row.
    pub fn view(&self) -> ReplyView<'_>
        ensures { lent_reply result ≡ self.now }
    {
        match self {
            Reply::Edited { id } => ReplyView::Edited { id: *id },
            Reply::Stepped { slot, row } => ReplyView::Stepped {
                slot: *slot,
                row: row.view(),
            },
            Reply::Refused(fault) => ReplyView::Refused(*fault),
        }
    }

    /// An equal reply.
    ///
    /// # Errors
    ///
    /// Where memory is refused.
    pub fn copy(&self) -> Result<Self, AllocError>
        ensures { IfOk result (λ reply. reply ≡ self.now) }
    {
        Ok(match self {
            Reply::Edited { id } => Reply::Edited { id: *id },
            Reply::Stepped { slot, row } => Reply::Stepped {
                slot: *slot,
                row: row.copy()?,
            },
            Reply::Refused(fault) => Reply::Refused(*fault),
        })
    }
}
