ghost use Rattle.std.specs.Prelude.{◌≡◌, ◌==◌, ◌++◌, ◌∷◌, [], ℕ, cond, if◌then◌else◌, IfOk, OnOk};
ghost use Rattle.pf_collections.specs.Table.Grown.{value_of};
ghost use Rattle.pf_run_notes.specs.Late.{AreLate};

use pf_collections::table::table::Table;
use pf_tally::miss::Miss;
use std::alloc::{AllocError, Global};

/// The tasks that missed windows: of each its first one, in their order, and how many they are.
#[derive(Drop)]
pub struct LateTasks {
    /// The first window of each task.
    pub firsts: Vec<Miss>,
    /// By the number of a task, how many windows it missed.
    pub counts: Table<u64>,
}

/// Appends the window, where its task has none among those counted.
fn note_first(firsts: &mut Vec<Miss>, miss: Miss, count: u64) -> Result<(), AllocError>
    ensures { OnOk result (firsts.new.items ≡ (if count == 0 then firsts.old.items ++ miss ∷ [] else firsts.old.items)) }
{
    if count == 0 {
        firsts.push(miss)?;
    }
    Ok(())
}

/// Gives the task this count.
fn give(counts: &mut Table<u64>, task: u32, count: u64) -> Result<(), AllocError>
    ensures { OnOk result ((t : ℕ) → value_of counts.new t ≡ cond (task == t) count (value_of counts.old t)) }
{
    counts.reserve(task)?;
    counts.set(task, count);
    Ok(())
}

impl LateTasks {
    ghost use Rattle.std.specs.Prelude.{◌+◌, ◌++◌, ◌∷◌, ◌<◌, ◌^◌, List, [], OnOk};
    ghost use Rattle.pf_tally.specs.declared.miss.Miss.{Miss};
    ghost use Rattle.pf_collections.specs.Table.Grown.{value_of};
    ghost use Rattle.pf_run_notes.specs.Late.{AreLate};

    /// A window more that was missed.
    fn note(&mut self, miss: Miss) -> Result<(), AllocError>
        requires few { value_of self.old.counts miss.task + 1 < 2 ^ 64 }
        ensures { OnOk result ((misses : List Miss) → AreLate misses self.old.firsts.items self.old.counts →
            AreLate (misses ++ miss ∷ []) self.new.firsts.items self.new.counts) }
    {
        let count = self.counts.get(miss.task);
        note_first(&mut self.firsts, miss, count)?;
        give(&mut self.counts, miss.task, count + 1)?;
        Ok(())
    }
}

/// The tasks of these missed windows.
///
/// # Errors
///
/// Where memory is refused.
pub fn late_tasks(alloc: Global, misses: &[Miss]) -> Result<LateTasks, AllocError>
    ensures { IfOk result (λ late. AreLate misses.now late.firsts.items late.counts) }
{
    let mut late = LateTasks {
        firsts: Vec::new(alloc),
        counts: Table::new(alloc, 0),
    };
    for miss in misses {
        late.note(*miss)?;
    }
    Ok(late)
}
