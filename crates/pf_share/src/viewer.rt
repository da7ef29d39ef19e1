ghost use Rattle.std.specs.Prelude.{◌≡◌, ◌++◌, ◌∷◌, [], length, IfOk, IsTrue, IsFalse};
ghost use Rattle.std.specs.Arc.{arc_value};
ghost use mathlib.Core.List.{IsPrefix};
ghost use Rattle.left_right.specs.Sides.{view};
ghost use Rattle.pf_desk.specs.Desk.{StandsForHistory};
ghost use Rattle.pf_share.specs.Reads.{IsAcquainted, new_viewer};

use crate::readers_rule::{Learn, Read, ShownReader};
use crate::stamp::Stamp;
use crate::unread::Unread;
use pf_desk::snapshot::Snapshot;
use std::marker::Model;
use std::sync::Arc;

/// Reads snapshots of one desk, whose histories only grow.
#[derive(Drop)]
pub struct Viewer {
    /// There but in the midst of a call.
    reader: Option<ShownReader>,
    read: Stamp,
    told: Stamp,
}

impl Model for Viewer {
    ghost use Rattle.pf_share.specs.Reads.{Viewing, nothing_read, of_some, IsViewer};

    ghost Value = { Viewing };

    ghost view = { λ s. record { origin = s.read.origin; read = s.read.history; told = s.told.history; reads = (of_some nothing_read (λ r. r.place.me.0.client) s.reader).reads } };

    ghost invariant = { λ s. IsViewer s.read s.told (of_some nothing_read (λ r. r.place.me.0.client) s.reader) };
}

impl Viewer {
    /// A viewer by a reader that read nothing. `opening` is the number of the empty history.
    pub(crate) fn new(reader: ShownReader, opening: &Stamp) -> Viewer
        requires opening { opening.now.history ≡ [] }
        requires reader { IsAcquainted opening.now (view reader.place) }
        requires none { (view reader.place).reads ≡ [] }
        ensures { result ≡ new_viewer opening.now.origin }
    {
        Viewer {
            reader: Some(reader),
            read: opening.again(),
            told: opening.again(),
        }
    }

    /// The snapshot that is shown. It waits for nobody. It stands for a history that begins with all that this viewer
    /// read before or was told.
    ///
    /// # Errors
    ///
    /// Where the readers' table gives no entry, or the snapshot takes no further owner.
    pub fn read(&mut self) -> Result<Arc<Snapshot>, Unread>
        ensures stands { IfOk result (λ s. StandsForHistory self.new.read (arc_value s)) }
        ensures settings { IfOk result (λ s. (arc_value s).state.plan.settings ≡ self.old.origin.settings) }
        ensures grew { IsPrefix self.old.read self.new.read }
        ensures told { IfOk result (λ s. IsPrefix self.old.told self.new.read) }
        ensures reads { IfOk result (λ s. self.new.reads ≡ self.old.reads ++ (arc_value s).version ∷ []) }
        ensures same { (self.new.told ≡ self.old.told) × (self.new.origin ≡ self.old.origin) }
    {
        let Some(reader) = self.reader.take() else {
            unreachable!();
        };
        match reader.enter_as::<Read>() {
            Ok(reading) => {
                let shown = reading.get();
                let snapshot = shown.snapshot();
                let stamp = shown.stamp().again();
                self.reader = Some(reading.leave());
                let Ok(snapshot) = snapshot else {
                    return Err(Unread);
                };
                self.read = stamp;
                Ok(snapshot)
            }
            Err(reader) => {
                self.reader = Some(reader);
                Err(Unread)
            }
        }
    }

    /// Tells the viewer this history, where it is the one that is shown; else the viewer is as before.
    pub(crate) fn learn(&mut self, stamp: &Stamp) -> bool
        requires { stamp.now.origin ≡ self.old.origin }
        ensures told { IsTrue result → self.new ≡ record self.old { told = stamp.now.history } }
        ensures grew { IsTrue result → IsPrefix self.old.told stamp.now.history }
        ensures read { IsTrue result → IsPrefix self.old.read stamp.now.history }
        ensures not_told { IsFalse result → self.new ≡ self.old }
    {
        let Some(reader) = self.reader.take() else {
            unreachable!();
        };
        match reader.enter_as::<Learn>() {
            Ok(reading) => {
                let is = reading.get().stamp().is(stamp);
                self.reader = Some(reading.leave());
                if is {
                    self.told = stamp.again();
                }
                is
            }
            Err(reader) => {
                self.reader = Some(reader);
                false
            }
        }
    }
}
