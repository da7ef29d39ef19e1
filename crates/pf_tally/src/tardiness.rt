ghost use Rattle.std.specs.Prelude.{◌≡◌};
ghost use Rattle.pf_tally.specs.Figures.{greatest_tardiness, tardiness_of};

use crate::miss::Miss;

/// By how many slots after the last one of its window a missed subtask ran; 0 where it did not run.
fn tardiness_of(miss: Miss) -> u64
    ensures { result ≡ tardiness_of miss }
{
    match miss.ran {
        Some(slot) => slot.saturating_sub(miss.deadline.saturating_sub(1)),
        None => 0,
    }
}

/// The greatest tardiness among these misses; 0 where there is none.
pub(crate) fn greatest_tardiness(misses: &[Miss]) -> u64
    ensures { result ≡ greatest_tardiness misses.now }
{
    let mut greatest = 0;
    for miss in misses {
        greatest = greatest.max(tardiness_of(*miss));
    }
    greatest
}
