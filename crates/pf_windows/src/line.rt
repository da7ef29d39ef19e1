ghost use Rattle.std.specs.Prelude.{◌≡◌, ◌++◌, ◌≤◌, [], OnOk};
ghost use Rattle.pf_text.specs.Page.{with_record};
ghost use Rattle.pf_vocabulary.specs.NameColumn.Column.{name_fields};
ghost use Rattle.pf_windows.specs.Windows.{quantum_fields, window_record};

use pf_courses::quantum::Quantum;
use pf_courses::window::Window;
use pf_courses::windows::eligible_from;
use pf_tally::admitted::Admitted;
use pf_text::table::Table;
use pf_vocabulary::name_column::column::show_name;
use pf_vocabulary::names::titles::Titles;
use std::alloc::AllocError;

/// Adds the fields of a quantum: empty where there is none.
fn show_quantum(table: &mut Table, ran: Option<Quantum>) -> Result<(), AllocError>
    ensures { OnOk result (table.new ≡ record { text = table.old.text; fields = table.old.fields ++ quantum_fields ran }) }
{
    match ran {
        Some(quantum) => {
            table.show_number(quantum.slot)?;
            table.show_number(u64::from(quantum.processor))
        }
        None => {
            table.show_nothing()?;
            table.show_nothing()
        }
    }
}

/// Adds the record of a window of a task, with its name.
pub(crate) fn push_window(
    table: &mut Table,
    task: Admitted,
    window: Window,
    titles: &Titles,
) -> Result<(), AllocError>
    requires start { table.old.fields ≡ [] }
    requires first { 1 ≤ window.sub }
    ensures { OnOk result (table.new ≡ with_record table.old (window_record task window ++ name_fields titles.now task.task)) }
{
    let job = (window.sub - 1) / task.weight.cost() + 1;
    let eligible = eligible_from(task, window.release);
    table.show_number(task.task)?;
    table.show_number(window.sub)?;
    table.show_number(job)?;
    table.show_number(eligible)?;
    table.show_number(window.release)?;
    table.show_number(window.deadline)?;
    table.show_number(window.bit)?;
    table.show_number(window.group)?;
    show_quantum(table, window.ran)?;
    show_name(table, titles, task.task)?;
    table.end_record()
}
