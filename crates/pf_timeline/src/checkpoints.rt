ghost use Rattle.std.specs.Prelude.{◌≡◌, ◌<◌, ◌≤◌, ◌+◌, ◌∷◌, [], ◌++◌, length, take, IfOk, OnOk, OnErr};
ghost use Rattle.std.specs.List.{slice_index_or};
ghost use Rattle.pf_timeline.specs.Keeping.{IsLastAt, last_at, next_due};

use crate::checkpoint::Checkpoint;
use pf_collections::list::shared_list::SharedList;
use pf_engine::engine::Engine;
use std::alloc::{AllocError, Global};
use std::marker::Model;

/// The checkpoints of a timeline, by slot: one each `every` slots, from slot 0 on. A copy shares them, and costs the same
/// however many there are.
pub struct Checkpoints {
    every: u64,
    points: SharedList<Checkpoint>,
}

// A call of its own, so that who drops checkpoints sees none of their parts.
impl Drop for Checkpoints {
    fn drop(self) {
        let Checkpoints {
            every: _,
            points: _,
        } = self;
    }
}

impl Model for Checkpoints {
    ghost use Rattle.pf_timeline.specs.Keeping.{Points};

    ghost Value = { Points };

    ghost view = { λ c. record { start = 0; every = c.every; points = c.points } };
}

impl Checkpoints {
    /// None yet.
    pub fn new(alloc: Global, every: u64) -> Self
        ensures { result ≡ record { start = 0; every = every; points = [] } }
    {
        Checkpoints {
            every,
            points: SharedList::new(alloc),
        }
    }

    /// How far they lie apart, in slots.
    pub fn every(&self) -> u64
        ensures { result ≡ self.now.every }
    {
        self.every
    }

    /// Keeps a checkpoint of an engine and the number of denials so far, where one is due.
    ///
    /// # Errors
    ///
    /// Where memory is refused: the checkpoints are as before.
    pub fn keep(&mut self, engine: &Engine, denials: usize) -> Result<(), AllocError>
        requires { 1 ≤ self.old.every }
        ensures due { next_due self.old ≤ engine.now.now → OnOk result (self.new ≡ record self.old {
          points = self.old.points ++ record { engine = engine.now; denials = denials } ∷ [];
        }) }
        ensures early { engine.now.now < next_due self.old → self.new ≡ self.old }
        ensures err { OnErr result (self.new ≡ self.old) }
    {
        if engine.now() / self.every < self.points.len() as u64 {
            return Ok(());
        }
        let engine = engine.save()?;
        self.points.push(Checkpoint { engine, denials })?;
        Ok(())
    }

    /// The last one not after slot `from`, which is below that of the next one.
    pub fn last(&self, from: u64) -> &Checkpoint
        requires apart { 1 ≤ self.now.every }
        requires reach { from < next_due self.now }
        ensures { IsLastAt self.now from (last_at self.now from) result.now }
    {
        match self.points.get((from / self.every) as usize) {
            Some(point) => point,
            None => unreachable!(),
        }
    }

    /// Those up to slot `t`, which is below that of the next one, shared.
    ///
    /// # Errors
    ///
    /// Where memory is refused.
    #[tactic(auto, using(crate::proofs::Points::last_below))]
    pub fn up_to(&self, t: u64) -> Result<Self, AllocError>
        requires apart { 1 ≤ self.now.every }
        requires reach { t < next_due self.now }
        ensures { IfOk result (λ c. c ≡ record self.now { points = take (last_at self.now t + 1) self.now.points }) }
    {
        let k = (t / self.every) as usize;
        if k >= self.points.len() {
            unreachable!();
        }
        Ok(Checkpoints {
            every: self.every,
            points: self.points.first(k + 1)?,
        })
    }

    /// All of these, shared.
    ///
    /// # Errors
    ///
    /// Where memory is refused.
    pub fn copy(&self) -> Result<Self, AllocError>
        ensures { IfOk result (λ c. c ≡ self.now) }
    {
        Ok(Checkpoints {
            every: self.every,
            points: self.points.copy()?,
        })
    }
}
