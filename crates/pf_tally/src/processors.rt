ghost use Rattle.std.specs.Prelude.{◌≡◌, ◌++◌, ℕ, length, All, IfOk, OnOk};
ghost use Rattle.pf_place.specs.Lent.{lent_row};
ghost use Rattle.pf_collections.specs.Table.Lists.{noted_of};
ghost use Rattle.pf_tally.specs.Figures.{is_of, processors_in};
ghost use Rattle.pf_tally.specs.Noted.{IsRow};
ghost use Rattle.pf_tally.specs.Quanta.{places_from};

use crate::admitted::Admitted;
use pf_collections::table::lists::Lists;
use pf_place::row_view::RowView;
use pf_place::rows::Rows;
use std::alloc::{AllocError, Global};

/// Notes of the tasks of the row on which processor they run.
fn note_places(table: &mut Lists<u32>, processors: u32, row: RowView<'_>) -> Result<(), AllocError>
    requires { length (lent_row row) ≡ processors }
    ensures { OnOk result ((task : ℕ) → noted_of table.new task ≡ noted_of table.old task ++ places_from (is_of task) 0 (lent_row row.entry)) }
{
    for processor in 0..processors {
        if let Some(pick) = row.get(processor) {
            table.note(u64::from(pick.task), processor)?;
        }
    }
    Ok(())
}

/// Of each task number the processors on which it runs, slot by slot: one walk over the rows.
pub fn processors_by_task(
    alloc: Global,
    processors: u32,
    rows: &Rows,
) -> Result<Lists<u32>, AllocError>
    requires { All (IsRow processors) rows.now }
    ensures { IfOk result (λ table. (task : ℕ) → noted_of table task ≡ processors_in rows.now task) }
{
    let mut table = Lists::new(alloc);
    for t in 0..rows.len() {
        match rows.get(t as u64) {
            Some(row) => note_places(&mut table, processors, row)?,
            None => unreachable!(),
        }
    }
    Ok(table)
}

/// The processors on which the task runs, by this table of them.
pub fn processors_of(table: &Lists<u32>, task: Admitted) -> &[u32]
    ensures { result.now ≡ noted_of table.now task.task }
{
    table.get(task.task)
}
