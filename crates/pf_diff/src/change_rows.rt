ghost use Rattle.std.specs.Prelude.{◌≡◌, [], OnOk};
ghost use Rattle.pf_text.specs.Page.{with_field, with_record};
ghost use Rattle.pf_diff.specs.Diff.{finding_field, change_record};

use crate::change::Change;
use crate::finding::Finding;
use pf_text::records::Records;
use pf_text::table::Table;
use std::alloc::AllocError;
use std::marker::Model;

/// Adds the field of what is found, which is empty where nothing is.
fn show_finding(table: &mut Table, finding: Option<Finding>) -> Result<(), AllocError>
    ensures { OnOk result (table.new ≡ with_field table.old (finding_field finding)) }
{
    match finding {
        None => table.show_nothing(),
        Some(Finding::Lag(lag)) => table.show(lag),
        Some(Finding::Ran(slot)) => table.show(format_args!("ran {slot}")),
        Some(Finding::Never) => table.show("never"),
        Some(Finding::Denied(denial)) => table.show(denial.name()),
    }
}

/// Adds the record of a change, with both numbers of its key or with the first alone.
fn push_change(table: &mut Table, paired: bool, change: Change) -> Result<(), AllocError>
    requires { table.old.fields ≡ [] }
    ensures { OnOk result (table.new ≡ with_record table.old (change_record paired change)) }
{
    table.show_number(change.first)?;
    if paired {
        table.show_number(change.second)?;
    }
    show_finding(table, change.before)?;
    show_finding(table, change.after)?;
    table.end_record()
}

/// Changes as records of a table.
#[derive(Drop)]
pub struct ChangeRows {
    changes: Vec<Change>,
    /// Whether the keys are two numbers.
    paired: bool,
}

impl Model for ChangeRows {
    ghost use Rattle.pf_diff.specs.Diff.{ChangeTable};

    ghost Value = { ChangeTable };

    ghost view = { λ r. record { changes = r.changes.items; paired = r.paired } };
}

impl ChangeRows {
    ghost use Rattle.std.specs.Prelude.{◌≡◌, ◌∷◌, ◌+◌, ◌<◌, length, drop};

    /// The records of these changes, with both numbers of their keys or with the first alone.
    pub(crate) fn new(changes: Vec<Change>, paired: bool) -> Self
        ensures { result ≡ record { changes = changes.items; paired = paired } }
    {
        ChangeRows { changes, paired }
    }

    /// The change at a place.
    fn get(&self, at: u64) -> Change
        requires { at < length self.now.changes }
        ensures { drop at self.now.changes ≡ result ∷ drop (at + 1) self.now.changes }
    {
        let changes = &self.changes;
        changes[at as usize]
    }

    /// Whether the keys are two numbers.
    fn is_paired(&self) -> bool
        ensures { result ≡ self.now.paired }
    {
        self.paired
    }
}

impl Records for ChangeRows {
    ghost use Rattle.std.specs.Prelude.{length, drop, map};
    ghost use Rattle.pf_diff.specs.Diff.{change_record};

    ghost count = { λ r. length r.changes };

    ghost rest = { λ r at. map (change_record r.paired) (drop at r.changes) };

    fn count(&self) -> u64 {
        self.changes.len() as u64
    }

    fn push_record(&self, table: &mut Table, at: u64) -> Result<(), AllocError> {
        push_change(table, self.is_paired(), self.get(at))
    }
}
