ghost use Rattle.std.specs.Prelude.{◌≡◌, ◌<◌, ◌≤◌, ◌^◌, ◌∷◌, [], ◌++◌, length, IfOk, OnOk, OnErr};
ghost use Rattle.pf_timeline.specs.Checkpoints.{most_near, near_distance};
ghost use Rattle.pf_timeline.specs.Keeping.{IsLastAt, IsLastOf, Trims, last_at, next_due, points_up_to};

use crate::checkpoint::Checkpoint;
use crate::checkpoints::Checkpoints;
use pf_collections::list::shared_list::SharedList;
use pf_engine::engine::Engine;
use std::alloc::{AllocError, Global};
use std::marker::Model;
use std::mem::replace;

/// How far near checkpoints lie apart, in slots.
pub const NEAR_DISTANCE: u64 = 32;

/// How many there are of the older ones at most, and of the newer ones: those of 256 slots, and one more.
const MOST: usize = 9;

/// The near checkpoints of a timeline: one each 32 slots, of the last 256 slots at least, and at most 18. A copy shares them.
pub struct NearCheckpoints {
    alloc: Global,
    /// The slot of the first one.
    start: u64,
    older: SharedList<Checkpoint>,
    /// Those after the older ones, once these are as many as they may be.
    newer: SharedList<Checkpoint>,
}

// A call of its own, so that who drops near checkpoints sees none of their parts.
impl Drop for NearCheckpoints {
    fn drop(self) {
        let NearCheckpoints {
            alloc: _,
            start: _,
            older: _,
            newer: _,
        } = self;
    }
}

impl Model for NearCheckpoints {
    ghost use Rattle.std.specs.Prelude.{◌≡◌, ◌⊎◌, ◌≤◌, ◌++◌, [], length};
    ghost use Rattle.pf_timeline.specs.Checkpoints.{near_distance};
    ghost use Rattle.pf_timeline.specs.Keeping.{Points};

    ghost Value = { Points };

    ghost view = { λ c. record { start = c.start; every = near_distance; points = c.older ++ c.newer } };

    ghost invariant = { λ c. (length c.older ≤ 9) × ((c.newer ≡ []) ⊎ (length c.older ≡ 9)) };
}

impl NearCheckpoints {
    /// None yet, of which the first is due at slot `start`.
    pub fn new(alloc: Global, start: u64) -> Self
        ensures { result ≡ record { start = start; every = near_distance; points = [] } }
    {
        NearCheckpoints {
            alloc,
            start,
            older: SharedList::new(alloc),
            newer: SharedList::new(alloc),
        }
    }

    /// The slot of the first one.
    pub fn start(&self) -> u64
        ensures slot { result ≡ self.now.start }
        ensures every { self.now.every ≡ near_distance }
    {
        self.start
    }

    /// Keeps a checkpoint of an engine and the number of denials so far, where one is due.
    ///
    /// # Errors
    ///
    /// Where memory is refused: the checkpoints are as before.
    pub fn keep(&mut self, engine: &Engine, denials: usize) -> Result<(), AllocError>
        requires { self.old.start ≤ engine.now.now }
        ensures due { next_due self.old ≤ engine.now.now → OnOk result (self.new ≡ record self.old {
          points = self.old.points ++ record { engine = engine.now; denials = denials } ∷ [];
        }) }
        ensures early { engine.now.now < next_due self.old → self.new ≡ self.old }
        ensures every { self.new.every ≡ near_distance }
        ensures err { OnErr result (self.new ≡ self.old) }
    {
        let k = ((engine.now() - self.start) / NEAR_DISTANCE) as usize;
        if k < self.older.len() || k - self.older.len() < self.newer.len() {
            return Ok(());
        }
        let engine = engine.save()?;
        let point = Checkpoint { engine, denials };
        if self.older.len() < MOST {
            self.older.push(point)?;
        } else {
            self.newer.push(point)?;
        }
        Ok(())
    }

    /// Lets the older ones go where the newer ones reach back 256 slots.
    pub fn trim(&mut self)
        requires wide { next_due self.old < 2 ^ 64 }
        requires few { length self.old.points ≤ most_near }
        ensures trims { Trims self.old self.new }
        ensures few { length self.new.points < most_near }
        ensures every { self.new.every ≡ near_distance }
    {
        if self.newer.len() < MOST {
            return;
        }
        self.start += NEAR_DISTANCE * self.older.len() as u64;
        self.older = replace(&mut self.newer, SharedList::new(self.alloc));
    }

    /// The last one not after slot `from`, which is not before the first one and below the next one.
    pub fn last(&self, from: u64) -> &Checkpoint
        requires begun { self.now.start ≤ from }
        requires reach { from < next_due self.now }
        ensures { IsLastAt self.now from (last_at self.now from) result.now }
    {
        let k = ((from - self.start) / NEAR_DISTANCE) as usize;
        let found = match k.checked_sub(self.older.len()) {
            Some(behind) => self.newer.get(behind),
            None => self.older.get(k),
        };
        match found {
            Some(point) => point,
            None => unreachable!(),
        }
    }

    /// Those up to slot `t`, which is below that of the next one, shared; none, from slot `t` on, where that is before the first one.
    ///
    /// # Errors
    ///
    /// Where memory is refused.
    #[tactic(auto, using(crate::proofs::Points::last_below, crate::proofs::Points::first_of_both))]
    pub fn up_to(&self, t: u64) -> Result<Self, AllocError>
        requires { t < next_due self.now }
        ensures { IfOk result (λ c. c ≡ points_up_to t self.now) }
    {
        if t < self.start {
            return Ok(NearCheckpoints::new(self.alloc, t));
        }
        let count = ((t - self.start) / NEAR_DISTANCE) as usize + 1;
        Ok(NearCheckpoints {
            alloc: self.alloc,
            start: self.start,
            older: self.older.first(count)?,
            newer: self.newer.first(count.saturating_sub(self.older.len()))?,
        })
    }

    /// All of these, shared.
    ///
    /// # Errors
    ///
    /// Where memory is refused.
    pub fn copy(&self) -> Result<Self, AllocError>
        ensures { IfOk result (λ c. c ≡ self.now) }
    {
        Ok(NearCheckpoints {
            alloc: self.alloc,
            start: self.start,
            older: self.older.copy()?,
            newer: self.newer.copy()?,
        })
    }
}

/// The last checkpoint not after slot `from`: a near one where these reach back so far, and lie closer.
pub(crate) fn last_of<'c>(
    checkpoints: &'c Checkpoints,
    near: &'c NearCheckpoints,
    from: u64,
) -> &'c Checkpoint
    requires apart { 1 ≤ checkpoints.now.every }
    requires reach { from < next_due checkpoints.now }
    requires near { from < next_due near.now }
    ensures { IsLastOf checkpoints.now near.now from result.now }
{
    if near.start() <= from && NEAR_DISTANCE <= checkpoints.every() {
        near.last(from)
    } else {
        checkpoints.last(from)
    }
}
