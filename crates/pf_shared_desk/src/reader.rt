ghost use Rattle.std.specs.Prelude.{◌≡◌, ◌≤◌, IfSome, IfNone};
ghost use Rattle.std.specs.Arc.{arc_value};
ghost use Rattle.pf_shared_desk.specs.Reading.{IsShown};

use crate::common::Common;
use pf_desk::snapshot::Snapshot;
use std::marker::Model;
use std::sync::Arc;

/// A reader of a shared desk: one thread's at a time. It waits for nobody, and nobody waits for it. Contracts see the
/// settings of its desk, and the version of the snapshot that it read last.
#[derive(Drop)]
pub struct Reader {
    common: Arc<Common>,
    version: u64,
}

impl Model for Reader {
    ghost use Rattle.std.specs.Arc.{arc_value};
    ghost use Rattle.pf_shared_desk.specs.Reading.{Reading};

    ghost Value = { Reading };

    ghost view = { λ r. record { settings = (arc_value r.common).terms; version = r.version } };
}

impl Reader {
    /// A reader that read nothing yet.
    pub(crate) fn new(common: Arc<Common>) -> Self
        ensures { result ≡ record { settings = (arc_value common).terms; version = 0 } }
    {
        Reader { common, version: 0 }
    }

    /// The snapshot that is shown: it stands for a legal history of the desk, no shorter than the one read last. None where
    /// there is nothing to read just now: it was changed under each of many tries, a newer one was read while it was
    /// being put there, or there can be no more of it.
    pub fn read(&mut self) -> Option<Arc<Snapshot>>
        ensures shown { IfSome result (λ s. IsShown self.old.settings (arc_value s)) }
        ensures rises { IfSome result (λ s. (self.old.version ≤ self.new.version) × (self.new.version ≡ (arc_value s).version)) }
        ensures none { IfNone result (self.new ≡ self.old) }
        ensures same { self.new.settings ≡ self.old.settings }
    {
        let snapshot = self.common.shown()?;
        let version = snapshot.version();
        if version < self.version {
            return None;
        }
        self.version = version;
        Some(snapshot)
    }
}
