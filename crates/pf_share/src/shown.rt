ghost use Rattle.std.specs.Prelude.{◌≡◌, IfOk};
ghost use Rattle.std.specs.Arc.{arc_value};
ghost use Rattle.pf_share.specs.Reads.{StandsForStamped};

use crate::stamp::Stamp;
use left_right::Absorb;
use pf_desk::snapshot::Snapshot;
use std::alloc::AllocError;
use std::marker::Model;
use std::sync::Arc;

/// What readers are shown: a snapshot, with the number of its history. Contracts see the numbered history.
#[derive(Drop)]
pub struct Shown {
    snapshot: Arc<Snapshot>,
    stamp: Stamp,
}

impl Model for Shown {
    ghost use Rattle.std.specs.Arc.{arc_value};
    ghost use Rattle.pf_share.specs.Stories.{Stamped};
    ghost use Rattle.pf_share.specs.Reads.{StandsForStamped};

    ghost Value = { Stamped };

    ghost view = { λ s. s.stamp };

    ghost invariant = { λ s. StandsForStamped s.stamp (arc_value s.snapshot) };
}

impl Shown {
    /// A snapshot that stands for the numbered history.
    pub fn new(snapshot: Arc<Snapshot>, stamp: Stamp) -> Shown
        requires { StandsForStamped stamp (arc_value snapshot) }
        ensures { result ≡ stamp }
    {
        Shown { snapshot, stamp }
    }

    /// The snapshot, for one more owner.
    ///
    /// # Errors
    ///
    /// Where the snapshot takes no further owner.
    pub fn snapshot(&self) -> Result<Arc<Snapshot>, AllocError>
        ensures { IfOk result (λ s. StandsForStamped self.now (arc_value s)) }
    {
        Arc::try_clone(&self.snapshot)
    }

    /// The number of its history.
    pub fn stamp(&self) -> &Stamp
        ensures { result.now ≡ self.now }
    {
        &self.stamp
    }

    /// The same snapshot and number.
    ///
    /// # Errors
    ///
    /// Where the snapshot takes no further owner.
    pub fn again(&self) -> Result<Shown, AllocError>
        ensures { IfOk result (λ s. s ≡ self.now) }
    {
        Ok(Shown {
            snapshot: Arc::try_clone(&self.snapshot)?,
            stamp: self.stamp.again(),
        })
    }
}

// What is shown last counts alone.
impl Absorb<Shown> for Shown {
    type State = Stamp;

    ghost state = { λ s. s };

    ghost applied = { λ stamp shown. shown };

    fn absorb_first(&mut self, operation: &Shown, _other: &Shown) -> Result<(), AllocError> {
        *self = operation.again()?;
        Ok(())
    }

    fn absorb_second(&mut self, operation: Shown, _other: &Shown) -> Result<(), Shown> {
        *self = operation;
        Ok(())
    }
}
