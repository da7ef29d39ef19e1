ghost use Rattle.std.specs.Prelude.{◌≡◌, [], ◌∷◌, ◌++◌, IfOk};
ghost use Rattle.std.specs.Arc.{arc_value};
ghost use Rattle.pf_desk.specs.Desk.{seen_of};
ghost use Rattle.pf_desk.specs.Kept.{shown_by, ready_by, IsKeptDesk};

use crate::entry::Entry;
use crate::history::History;
use crate::reply::Reply;
use crate::scenario_run::ScenarioRun;
use crate::snapshot::Snapshot;
use std::alloc::AllocError;
use std::marker::Model;
use std::snapshot;
use std::sync::Arc;

/// A command made ready: its reply and a snapshot of the desk as it would then be. Dropped, it did nothing.
#[derive(Drop)]
pub struct Prepared {
    pub(crate) run: ScenarioRun,
    pub(crate) entry: Entry,
    pub(crate) snapshot: Arc<Snapshot>,

    /// The history that it was made ready for, which clauses alone see.
    pub(crate) history: snapshot::Snapshot<History>,
}

impl Model for Prepared {
    ghost use Rattle.std.specs.Arc.{arc_value};
    ghost use Rattle.pf_desk.specs.Desk.{Ready};
    ghost use Rattle.pf_desk.specs.Kept.{ready_by, IsMadeReady};

    ghost Value = { Ready };

    ghost view = { λ p. ready_by p.run.scenario p.run.timeline p.history.value.entries p.entry (arc_value p.snapshot) };

    ghost invariant = { λ p. IsMadeReady p.run.scenario p.run.timeline p.history.value.entries p.entry (arc_value p.snapshot) };
}

impl Prepared {
    /// The command of an entry made ready, where a desk with this history would then have this scenario with its run.
    ///
    /// # Errors
    ///
    /// Where memory is refused.
    pub(crate) fn of(run: ScenarioRun, history: &History, entry: Entry) -> Result<Self, AllocError>
        requires { IsKeptDesk run.scenario run.timeline (history.now.entries ++ entry ∷ []) }
        ensures { IfOk result (λ p. p ≡ ready_by run.scenario run.timeline history.now.entries entry (seen_of (shown_by run.scenario run.timeline (history.now.entries ++ entry ∷ []) 0))) }
    {
        let alloc = history.alloc();
        let shown = run.snapshot(alloc, history.len() as u64 + 1)?;
        let snapshot = Arc::new(alloc, shown)?;
        Ok(Prepared {
            run,
            entry,
            snapshot,
            history: snapshot::Snapshot::of(history),
        })
    }

    /// What the command would be answered.
    pub fn reply(&self) -> &Reply
        ensures { result.now ≡ self.now.entry.reply }
    {
        &self.entry.reply
    }

    /// What the desk would then show.
    pub fn snapshot(&self) -> &Arc<Snapshot>
        ensures { arc_value result.now ≡ self.now.seen }
    {
        &self.snapshot
    }
}
