ghost use Rattle.std.specs.Prelude.{◌≡◌, IfOk, OnOk, Option, ℕ, length};
ghost use Rattle.csv.specs.Records.{fields_of};
ghost use Rattle.pf_text.specs.Rows.Rows.{Row, rows};
ghost use Rattle.pf_convert.specs.List.List.{bad_heading, list_of, list_told, nothing_told, tasks_told, told_of};
ghost use Rattle.pf_convert.specs.List.Reading.{list_carries, rows_carry, rule_for};

use crate::list::fault::{FileFault, HeadingFault};
use crate::list::file_fault::{bytes_fault, names_script};
use crate::list::file_report::{file_message, no_task_message, too_many_message};
use crate::list::heading::Heading;
use crate::list::heading_report::heading_message;
use crate::list::list_head::ListHead;
use crate::list::listed::Listed;
use crate::list::message::Message;
use crate::list::messages::Messages;
use crate::list::open_line::open_line;
use crate::list::read::{read_task, row_carries};
use crate::list::task_report::task_message;
use crate::list::tasks::Tasks;
use crate::list::unit_rule::UnitRule;
use csv::ByteRecord;
use pf_text::rows::rows::{NextRow, Rows};
use pf_vocabulary::names::unit::Unit;
use pf_weight::task::LARGEST_TASK;
use std::alloc::{AllocError, Global};
use std::marker::Model;

/// What a list tells: its tasks, the messages of its faults, and where its columns are.
#[derive(Drop)]
pub struct TaskList {
    tasks: Tasks,
    faults: Messages,
    heading: Heading,
}

impl Model for TaskList {
    ghost use Rattle.std.specs.Prelude.{◌≤◌, All, length};
    ghost use Rattle.pf_convert.specs.Slots.{IsTimed};
    ghost use Rattle.pf_convert.specs.List.List.{ListTold};

    ghost Value = { ListTold };

    ghost view = { λ l. record { tasks = l.tasks; faults = l.faults; heading = l.heading } };

    ghost invariant = { λ l. All (λ t. IsTimed t.times) l.tasks × (length l.tasks ≤ 4095) };
}

impl TaskList {
    ghost use Rattle.std.specs.Prelude.{◌≡◌, ◌≤◌, ◌<◌, ◌+◌, [], ◌∷◌, All, IfOk, OnOk, length};
    ghost use Rattle.csv.specs.Records.{fields_of};
    ghost use Rattle.pf_convert.specs.Slots.{IsTimed};
    ghost use Rattle.pf_weight.specs.declared.task.TheConstants.{LARGEST_TASK};
    ghost use Rattle.pf_convert.specs.List.Faults.{file_message};
    ghost use Rattle.pf_convert.specs.List.List.{nothing_told, with_fault, with_row};

    /// No tasks and no faults.
    fn new(alloc: Global) -> Self
        ensures { result ≡ nothing_told }
    {
        TaskList {
            tasks: Tasks::new(alloc),
            faults: Messages::new(alloc),
            heading: Heading::new(),
        }
    }

    /// The list of which nothing is told but what the file of this name is.
    fn of_fault(alloc: Global, file: &[u8], fault: FileFault) -> Result<Self, AllocError>
        ensures { IfOk result (λ list. list ≡ record nothing_told { faults = file_message file.now fault ∷ [] }) }
    {
        let mut list = TaskList::new(alloc);
        list.push_fault(file_message(alloc, file, fault)?)?;
        Ok(list)
    }

    /// The tasks, in the order of their records.
    pub fn tasks(&self) -> &[Listed]
        ensures tasks { result.now ≡ self.now.tasks }
        ensures timed { All (λ t. IsTimed t.times) result.now }
        ensures few { length result.now ≤ LARGEST_TASK }
    {
        self.tasks.as_slice()
    }

    /// The messages of the faults, in the order of their records.
    pub fn faults(&self) -> &Messages
        ensures { result.now ≡ self.now.faults }
    {
        &self.faults
    }

    /// Where the columns are.
    pub fn heading(&self) -> &Heading
        ensures { result.now ≡ self.now.heading }
    {
        &self.heading
    }

    /// Adds a message.
    fn push_fault(&mut self, message: Message) -> Result<(), AllocError>
        ensures { OnOk result (self.new ≡ with_fault self.old message) }
    {
        self.faults.push(message)
    }

    /// Adds the task that a row of this line is, or the message of its fault.
    #[tactic(auto, unfolding(crate::specs::List::List::with_row))]
    fn note(
        &mut self,
        alloc: Global,
        head: &ListHead,
        line: u64,
        row: &ByteRecord,
    ) -> Result<(), AllocError>
        requires { length self.old.tasks < LARGEST_TASK }
        ensures told { OnOk result (self.new ≡ with_row head.now self.old (record { line = line; fields = fields_of row.now })) }
        ensures few { OnOk result (length self.new.tasks ≤ length self.old.tasks + 1) }
    {
        match read_task(head.rule, &head.heading, &self.tasks, line, row) {
            Ok(task) => self.tasks.push(alloc, task),
            Err(fault) => {
                let message = task_message(alloc, head, line, row, fault)?;
                self.push_fault(message)
            }
        }
    }
}

/// What the list of a file of this name tells; its times that carry no unit are in the one that is given. The file `-` is standard
/// input.
///
/// # Errors
///
/// Where memory is refused.
#[tactic(auto, unfolding(crate::specs::List::List::list_told))]
pub fn read_list(
    alloc: Global,
    file: &[u8],
    given: Option<Unit>,
    text: &[u8],
) -> Result<TaskList, AllocError>
    ensures { IfOk result (λ list. list ≡ list_told file.now given text.now) }
{
    let list = list_of(alloc, file, given, text)?;
    if list.faults().len() == 0 {
        return Ok(list);
    }
    match bytes_fault(text) {
        Some(fault) => TaskList::of_fault(alloc, file, fault),
        None => Ok(list),
    }
}

/// What its rows tell.
fn list_of(
    alloc: Global,
    file: &[u8],
    given: Option<Unit>,
    text: &[u8],
) -> Result<TaskList, AllocError>
    ensures { IfOk result (λ list. list ≡ list_of file.now given text.now) }
{
    let rule = rule_for(alloc, given, text)?;
    let quoted = open_line(text);
    let mut list = TaskList::new(alloc);
    read_rows(
        alloc,
        file,
        rule,
        quoted,
        &mut Rows::new(alloc, text),
        &mut list,
    )?;
    Ok(list)
}

/// In which unit the times of a list are, where this one is given or none.
fn rule_for(alloc: Global, given: Option<Unit>, text: &[u8]) -> Result<UnitRule, AllocError>
    ensures { IfOk result (λ rule. rule ≡ rule_for given (rows text.now).rows) }
{
    if let Some(assumed) = given {
        return Ok(UnitRule {
            assumed,
            is_needed: false,
        });
    }
    let is_needed = list_carries(alloc, &mut Rows::new(alloc, text))?;
    Ok(UnitRule {
        assumed: Unit::Millisecond,
        is_needed,
    })
}

/// Whether a time of these rows carries a unit.
fn list_carries(alloc: Global, rows: &mut Rows<'_>) -> Result<bool, AllocError>
    ensures { IfOk result (λ carries. carries ≡ list_carries rows.old.rows) }
{
    let mut row = ByteRecord::new(alloc);
    match rows.next(&mut row)? {
        NextRow::Found(_) => match Heading::read(&row) {
            Ok(heading) => rows_carry(&heading, rows, &mut row),
            Err(_) => Ok(false),
        },
        NextRow::End(_) => Ok(false),
    }
}

/// Whether a time of these rows after the heading carries a unit. Each is read into `row`.
fn rows_carry(
    heading: &Heading,
    rows: &mut Rows<'_>,
    row: &mut ByteRecord,
) -> Result<bool, AllocError>
    ensures { IfOk result (λ carries. carries ≡ rows_carry heading.now 0 rows.old.rows) }
{
    for number in 0..LARGEST_TASK {
        match rows.next(row)? {
            NextRow::Found(_) if row_carries(heading, row) => return Ok(true),
            NextRow::Found(_) => {}
            NextRow::End(_) => return Ok(false),
        }
    }
    Ok(false)
}

/// Adds what these rows tell to a list that tells nothing yet.
fn read_rows(
    alloc: Global,
    file: &[u8],
    rule: UnitRule,
    quoted: Option<u64>,
    rows: &mut Rows<'_>,
    list: &mut TaskList,
) -> Result<(), AllocError>
    requires { list.old ≡ nothing_told }
    ensures { OnOk result (list.new ≡ told_of file.now rule quoted rows.old.end rows.old.rows) }
{
    let mut row = ByteRecord::new(alloc);
    match rows.next(&mut row)? {
        NextRow::Found(line) => match Heading::read(&row) {
            Ok(heading) => {
                list.heading = heading;
                let head = ListHead {
                    rule,
                    heading,
                    names: row,
                    open_line: quoted,
                };
                read_tasks(alloc, &head, rows, &mut ByteRecord::new(alloc), list)
            }
            Err(fault) => list.push_fault(bad_heading(alloc, file, line, &row, fault)?),
        },
        NextRow::End(_) => list.push_fault(file_message(alloc, file, FileFault::NoRecord)?),
    }
}

/// The message of a row of this line that is no heading.
fn bad_heading(
    alloc: Global,
    file: &[u8],
    line: u64,
    row: &ByteRecord,
    fault: HeadingFault,
) -> Result<Message, AllocError>
    ensures { IfOk result (λ message. message ≡ bad_heading file.now (record { line = line; fields = fields_of row.now }) fault) }
{
    if names_script(row) {
        return file_message(alloc, file, FileFault::NoList);
    }
    heading_message(alloc, line, row, fault)
}

/// Adds what the rows that are left tell, after the heading. Each is read into `row`.
fn read_tasks(
    alloc: Global,
    head: &ListHead,
    rows: &mut Rows<'_>,
    row: &mut ByteRecord,
    list: &mut TaskList,
) -> Result<(), AllocError>
    requires { length list.old.tasks ≡ 0 }
    ensures { OnOk result (list.new ≡ tasks_told head.now 0 list.old rows.old.end rows.old.rows) }
{
    for count in 0..LARGEST_TASK {
        match rows.next(row)? {
            NextRow::Found(line) => list.note(alloc, head, line, row)?,
            NextRow::End(line) if count == 0 => {
                return list.push_fault(no_task_message(alloc, head, line)?);
            }
            NextRow::End(_) => return Ok(()),
        }
    }
    match rows.next(row)? {
        NextRow::Found(line) => list.push_fault(too_many_message(alloc, line)?),
        NextRow::End(_) => Ok(()),
    }
}
