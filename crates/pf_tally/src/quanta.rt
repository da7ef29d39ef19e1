ghost use Rattle.std.specs.Prelude.{◌≡◌, All, IfOk, OnOk};
ghost use Rattle.pf_place.specs.Lent.{lent_row};
ghost use Rattle.pf_collections.specs.Table.Lists.{noted_of};
ghost use Rattle.pf_tally.specs.Noted.{IsRow, AreNoted, IsTableOf};

use crate::admitted::Admitted;
use pf_collections::table::lists::Lists;
use pf_place::row_view::RowView;
use pf_place::rows::Rows;
use std::alloc::{AllocError, Global};

/// Notes of the tasks of the row that they run in slot t.
fn note_row(
    table: &mut Lists<u64>,
    processors: u32,
    row: RowView<'_>,
    t: u64,
) -> Result<(), AllocError>
    requires { IsRow processors (lent_row row) }
    ensures { OnOk result (AreNoted table.old table.new (lent_row row.entry) t) }
{
    for processor in 0..processors {
        if let Some(pick) = row.get(processor) {
            table.note(u64::from(pick.task), t)?;
        }
    }
    Ok(())
}

/// Of each task number the slots in whose row it sits, rising: one walk over the rows.
pub(crate) fn quanta_by_task(
    alloc: Global,
    processors: u32,
    rows: &Rows,
) -> Result<Lists<u64>, AllocError>
    requires { All (IsRow processors) rows.now }
    ensures { IfOk result (λ table. IsTableOf rows.now table) }
{
    let mut table = Lists::new(alloc);
    for t in 0..rows.len() {
        match rows.get(t as u64) {
            Some(row) => note_row(&mut table, processors, row, t as u64)?,
            None => unreachable!(),
        }
    }
    Ok(table)
}

/// The slots in which the task runs, rising, by this table of them.
pub(crate) fn quanta_of(table: &Lists<u64>, task: Admitted) -> &[u64]
    ensures { result.now ≡ noted_of table.now task.task }
{
    table.get(task.task)
}
