ghost use Rattle.std.specs.Prelude.{◌≡◌, ◌≤◌, ◌<◌, IfOk, IfSome};
ghost use Rattle.csv.specs.Records.{fields_of};
ghost use Rattle.pf_convert.specs.declared.timed.TheConstants.{TIME_LIMIT};
ghost use Rattle.pf_convert.specs.Slots.{IsTimed};
ghost use Rattle.pf_convert.specs.List.Reading.{count_fault, deadline_in, list_time, name_for, needed_time, optional_time, row_carries, task_in, times_in};

use crate::list::column::Column;
use crate::list::fault::TaskFault;
use crate::list::heading::Heading;
use crate::list::listed::Listed;
use crate::list::tasks::Tasks;
use crate::list::time::{TimeFault, carried_unit, carries_unit, parse_time};
use crate::list::unit_rule::UnitRule;
use crate::timed::Timed;
use csv::ByteRecord;
use pf_vocabulary::names::name::Name;

/// The task that a row of this line is, after these tasks.
///
/// # Errors
///
/// The first thing that is wrong with it: how many fields it has, and then its columns in their order.
#[tactic(auto, unfolding(crate::specs::List::Reading::task_in))]
pub fn read_task(
    rule: UnitRule,
    heading: &Heading,
    tasks: &Tasks,
    line: u64,
    row: &ByteRecord,
) -> Result<Listed, TaskFault>
    ensures value { result ≡ task_in rule heading.now tasks.now line (fields_of row.now) }
    ensures timed { IfOk result (λ task. IsTimed task.times) }
{
    if let Some(fault) = count_fault(heading, row) {
        return Err(fault);
    }
    let name = read_name(tasks, heading.field(Column::Name, row))?;
    let times = read_times(rule, heading, row)?;
    Ok(Listed {
        line,
        name,
        times,
        unit: carried_unit(heading.field(Column::Every, row)),
    })
}

/// Why a row has not as many fields as the heading, where it hasn't.
fn count_fault(heading: &Heading, row: &ByteRecord) -> Option<TaskFault>
    ensures { result ≡ count_fault heading.now (fields_of row.now) }
{
    if row.len() < heading.count {
        return Some(TaskFault::TooFew(row.len()));
    }
    if row.len() > heading.count {
        return Some(TaskFault::TooMany(heading.count));
    }
    None
}

/// The name that a field gives to a task after these tasks.
fn read_name(tasks: &Tasks, field: &[u8]) -> Result<Name, TaskFault>
    ensures { result ≡ name_for tasks.now field.now }
{
    let Some(name) = Name::new(field) else {
        return Err(TaskFault::NoName);
    };
    match tasks.line_of(name.as_str()) {
        Some(line) => Err(TaskFault::NameTaken(line)),
        None => Ok(name),
    }
}

/// The times of a row.
#[tactic(auto, unfolding(crate::specs::List::Reading::times_in))]
fn read_times(rule: UnitRule, heading: &Heading, row: &ByteRecord) -> Result<Timed, TaskFault>
    ensures value { result ≡ times_in rule heading.now (fields_of row.now) }
    ensures timed { IfOk result IsTimed }
{
    let work = needed_time(rule, Column::Work, heading.field(Column::Work, row))?;
    let every = needed_time(rule, Column::Every, heading.field(Column::Every, row))?;
    let deadline = read_deadline(rule, every, heading.field(Column::Deadline, row))?;
    let first = optional_time(rule, Column::First, heading.field(Column::First, row))?;
    let early = optional_time(rule, Column::Early, heading.field(Column::Early, row))?;
    Ok(Timed {
        work,
        every,
        deadline,
        first,
        early,
    })
}

/// A deadline above 0 and at most the time between two jobs; none where the field is empty.
#[tactic(auto, unfolding(crate::specs::List::Reading::deadline_in))]
fn read_deadline(rule: UnitRule, every: u64, field: &[u8]) -> Result<Option<u64>, TaskFault>
    ensures value { result ≡ deadline_in rule every field.now }
    ensures due { IfOk result (λ deadline. IfSome deadline (λ d. (1 ≤ d) × (d ≤ every))) }
{
    if field.is_empty() {
        return Ok(None);
    }
    let due = needed_time(rule, Column::Deadline, field)?;
    if due > every {
        return Err(TaskFault::LateDeadline);
    }
    Ok(Some(due))
}

/// A time of a list.
#[tactic(auto, unfolding(crate::specs::List::Reading::list_time))]
fn list_time(rule: UnitRule, field: &[u8]) -> Result<u64, TimeFault>
    ensures value { result ≡ list_time rule field.now }
    ensures small { IfOk result (λ t. t < TIME_LIMIT) }
{
    let time = parse_time(rule.assumed, field)?;
    if rule.is_needed && time > 0 && carried_unit(field).is_none() {
        return Err(TimeFault::NoUnit);
    }
    Ok(time)
}

/// A time above 0.
#[tactic(auto, unfolding(crate::specs::List::Reading::needed_time))]
fn needed_time(rule: UnitRule, column: Column, field: &[u8]) -> Result<u64, TaskFault>
    ensures value { result ≡ needed_time rule column field.now }
    ensures some { IfOk result (λ t. 1 ≤ t) }
    ensures small { IfOk result (λ t. t < TIME_LIMIT) }
{
    match list_time(rule, field) {
        Ok(0) => Err(TaskFault::Time(column, TimeFault::Zero)),
        Ok(time) => Ok(time),
        Err(fault) => Err(TaskFault::Time(column, fault)),
    }
}

/// A time, 0 where the field is empty.
#[tactic(auto, unfolding(crate::specs::List::Reading::optional_time))]
fn optional_time(rule: UnitRule, column: Column, field: &[u8]) -> Result<u64, TaskFault>
    ensures value { result ≡ optional_time rule column field.now }
    ensures small { IfOk result (λ t. t < TIME_LIMIT) }
{
    if field.is_empty() {
        return Ok(0);
    }
    match list_time(rule, field) {
        Ok(time) => Ok(time),
        Err(fault) => Err(TaskFault::Time(column, fault)),
    }
}

/// Whether a field of a column of times of this row, which has as many fields as the heading, is a time that carries a unit.
#[tactic(auto, unfolding(crate::specs::List::Reading::row_carries))]
pub fn row_carries(heading: &Heading, row: &ByteRecord) -> bool
    ensures { result ≡ row_carries heading.now (fields_of row.now) }
{
    row.len() == heading.count
        && (carries_unit(heading.field(Column::Work, row))
            || carries_unit(heading.field(Column::Every, row))
            || carries_unit(heading.field(Column::Deadline, row))
            || carries_unit(heading.field(Column::First, row))
            || carries_unit(heading.field(Column::Early, row)))
}
