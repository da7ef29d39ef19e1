ghost use Rattle.std.specs.Prelude.{◌≡◌, ◌<◌, ◌≤◌, ◌+◌, ◌^◌, ◌++◌, ◌∷◌, [], true, length, get_or, ℕ, OnOk};
ghost use Rattle.std.specs.List.{All, slice_get};
ghost use Rattle.std.specs.List.Sorted.{IsNonDecreasingBy};
ghost use Rattle.pf_desk.specs.declared.brief.Brief.{Brief};
ghost use Rattle.pf_desk.specs.declared.run.Run.{Run};
ghost use Rattle.pf_desk.specs.Runs.{Begin, brief_in, brief_of_run};

use crate::brief::Brief;
use crate::run::Run;
use std::alloc::{AllocError, Global};
use std::marker::Model;

/// The most briefs, so that they can be counted: far beyond what a memory holds.
const MOST: usize = 0x7fff_ffff_ffff_ffff;

/// What a history keeps of its entries. Those of one caller that follow one another, all steps that took a slot or all
/// commands that took none, take 24 bytes together.
#[derive(Debug, Drop)]
pub(crate) struct Briefs {
    runs: Vec<Run>,
    count: usize,
}

impl Model for Briefs {
    ghost use Rattle.std.specs.Prelude.{◌-◌, length, min};
    ghost use Rattle.std.specs.Vec.{vec_capacity};
    ghost use Rattle.pf_desk.specs.declared.briefs.TheConstants.{MOST};
    ghost use Rattle.pf_desk.specs.Runs.{Noted, AreRuns, briefs_in};

    ghost Value = { Noted };

    ghost view = { λ b. record {
      items = briefs_in b.runs.items b.count;
      room = min (vec_capacity b.runs - length b.runs.items) (MOST - b.count);
    } };

    ghost invariant = { λ b. AreRuns b.runs.items b.count };
}

impl Briefs {
    /// None.
    pub(crate) fn new(alloc: Global) -> Self
        ensures { result.items ≡ [] }
    {
        Briefs {
            runs: Vec::new(alloc),
            count: 0,
        }
    }

    /// How many there are.
    pub(crate) fn len(&self) -> usize
        ensures value { result ≡ length self.now.items }
        ensures small { result < 2 ^ 63 }
    {
        self.count
    }

    /// The k-th, where there is one.
    pub(crate) fn get(&self, k: usize) -> Option<Brief>
        ensures { result ≡ slice_get self.now.items k }
    {
        if k >= self.count {
            return None;
        }
        Some(run_of(&self.runs, k).brief(k))
    }

    /// Makes room for `more` of them.
    ///
    /// # Errors
    ///
    /// Where memory is refused.
    pub(crate) fn reserve(&mut self, more: usize) -> Result<(), AllocError>
        ensures items { self.new.items ≡ self.old.items }
        ensures room { self.old.room ≤ self.new.room }
        ensures ok { OnOk result (more ≤ self.new.room) }
    {
        if MOST - self.count < more {
            return Err(AllocError);
        }
        self.runs.reserve(more)
    }

    /// Appends one. There must be room; it takes no memory.
    pub(crate) fn push_reserved(&mut self, brief: Brief)
        requires { 1 ≤ self.old.room }
        ensures items { self.new.items ≡ self.old.items ++ brief ∷ [] }
        ensures room { self.old.room ≤ self.new.room + 1 }
    {
        if !goes_on(&self.runs, self.count, brief) {
            let start = self.count;
            self.runs.push_reserved(Run {
                start,
                first: brief,
            });
        }
        self.count += 1;
    }
}

/// The last run that begins with the k-th brief or before it.
fn run_of(runs: &[Run], k: usize) -> Run
    requires rise { IsNonDecreasingBy (λ run. run.start) runs.now }
    requires begin { Begin runs.now }
    ensures start { result.start ≤ k }
    ensures brief { (before : Brief) → brief_in before runs.now k ≡ brief_of_run result k }
{
    runs[count_begun(runs, k) - 1]
}

/// How many runs begin with the k-th brief or before it. Mostly the last brief is asked for, so the last run is looked at
/// before the others are searched.
fn count_begun(runs: &[Run], k: usize) -> usize
    requires { IsNonDecreasingBy (λ run. run.start) runs.now }
    ensures within { result ≤ length runs.now }
    ensures begun { (m : ℕ) → (d : Run) → m < result → (get_or runs.now m d).start ≤ k }
    ensures later { (m : ℕ) → (d : Run) → result ≤ m → m < length runs.now → k < (get_or runs.now m d).start }
{
    match runs.last() {
        Some(run) if run.start <= k => runs.len(),
        _ => runs.partition_point(|run| run.start <= k),
    }
}

/// Whether the brief is the next of the last run, after so many briefs.
fn goes_on(runs: &[Run], count: usize, brief: Brief) -> bool
    requires { All (λ run. run.start < count) runs.now }
    ensures some { result ≡ true → 0 < length runs.now }
    ensures brief { result ≡ true → (before : Brief) → brief_in before runs.now count ≡ brief }
{
    match runs.last() {
        Some(run) => run.brief(count) == brief,
        None => false,
    }
}
