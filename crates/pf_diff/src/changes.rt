ghost use Rattle.std.specs.Prelude.{◌≡◌, IfOk, OnOk};
ghost use Rattle.pf_diff.specs.Changes.{noted, by_key, change_at, changes_of};

use crate::cell::Cell;
use crate::change::Change;
use crate::finding::{Finding, is_same};
use std::alloc::{AllocError, Global};
use std::collections::BTreeMap;

/// A table by key.
type ByKey = BTreeMap<(u64, u64), Finding>;

/// Notes these cells in a table by key. Of two with one key the later stands.
fn note(table: &mut ByKey, cells: &[Cell]) -> Result<(), AllocError>
    ensures { OnOk result (table.new.entries ≡ noted table.old.entries cells.now) }
{
    for cell in cells {
        table.insert((cell.first, cell.second), cell.finding)?;
    }
    Ok(())
}

/// These cells as a table by key.
fn table_of(alloc: Global, cells: &[Cell]) -> Result<ByKey, AllocError>
    ensures { IfOk result (λ table. table.entries ≡ by_key cells.now) }
{
    let mut table = BTreeMap::new(alloc);
    note(&mut table, cells)?;
    Ok(table)
}

/// What is found at a key in two tables.
fn compared(before: &ByKey, after: &ByKey, key: (u64, u64)) -> Change
    ensures { result ≡ change_at before.now.entries after.now.entries key }
{
    Change {
        first: key.0,
        second: key.1,
        before: before.get(&key).copied(),
        after: after.get(&key).copied(),
    }
}

/// What differs between two tables, by key.
///
/// # Errors
///
/// Where memory is refused.
pub fn changes(alloc: Global, before: &[Cell], after: &[Cell]) -> Result<Vec<Change>, AllocError>
    ensures { IfOk result (λ changes. changes.items ≡ changes_of before.now after.now) }
{
    let first = table_of(alloc, before)?;
    let second = table_of(alloc, after)?;
    let mut both = table_of(alloc, before)?;
    note(&mut both, after)?;
    let mut changes = Vec::new(alloc);
    for key in both.keys() {
        let change = compared(&first, &second, *key);
        if !is_same(change.before, change.after) {
            changes.push(change)?;
        }
    }
    Ok(changes)
}
