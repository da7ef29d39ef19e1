ghost use Rattle.std.specs.Prelude.{◌≡◌, ◌++◌, [], map, OnOk};
ghost use Rattle.pf_text.specs.Page.{with_record};
ghost use Rattle.pf_vocabulary.specs.NameColumn.Column.{name_fields, name_heading};

use crate::names::titles::Titles;
use pf_text::table::Table;
use std::alloc::AllocError;

/// Adds the heading of a table of tasks: these texts, and in a plan `name`.
///
/// # Errors
///
/// Where memory is refused: the table is given up.
pub fn push_heading(table: &mut Table, texts: &[&str], titles: &Titles) -> Result<(), AllocError>
    requires { table.old.fields ≡ [] }
    ensures { OnOk result (table.new ≡ with_record table.old (map (λ text. text.now) texts.now ++ name_heading titles.now)) }
{
    for text in texts {
        table.show(*text)?;
    }
    if titles.is_plan {
        table.show("name")?;
    }
    table.end_record()
}

/// Adds the last field of a task's record: in a plan its name, or nothing where it has none.
///
/// # Errors
///
/// Where memory is refused: the table is given up.
pub fn show_name(table: &mut Table, titles: &Titles, task: u64) -> Result<(), AllocError>
    ensures { OnOk result (table.new ≡ record { text = table.old.text; fields = table.old.fields ++ name_fields titles.now task }) }
{
    if !titles.is_plan {
        return Ok(());
    }
    match titles.names.of_task(task) {
        Some(name) => table.show(name.as_str()),
        None => table.show_nothing(),
    }
}
