ghost use Rattle.std.specs.Prelude.{IfOk};
ghost use Rattle.pf_convert.specs.Totals.{AreTotals};

use crate::slotted::Slotted;
use std::alloc::{AllocError, Global};

/// What tasks cost together.
#[derive(Clone, Copy)]
pub struct Total {
    /// The sum of their costs.
    pub cost: u128,
    /// The greatest of their costs, 0 where there are none.
    pub greatest: u64,
}

/// The total of none of the tasks, of the first, of the first two and so on up to all.
///
/// # Errors
///
/// Where memory is refused.
pub fn totals_of(alloc: Global, tasks: &[Slotted]) -> Result<Vec<Total>, AllocError>
    ensures { IfOk result (λ v. AreTotals tasks.now v.items) }
{
    let mut totals = Vec::new(alloc);
    let mut total = Total {
        cost: 0,
        greatest: 0,
    };
    totals.push(total)?;
    for task in tasks {
        total = Total {
            cost: total.cost + u128::from(task.cost),
            greatest: total.greatest.max(task.cost),
        };
        totals.push(total)?;
    }
    Ok(totals)
}
