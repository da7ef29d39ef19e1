ghost use Rattle.std.specs.Prelude.{◌≡◌, [], IfOk, IfSome, OnOk};
ghost use Rattle.csv.specs.Records.{fields_of};
ghost use Rattle.pf_script.specs.Plan.Heading.{heading_fault};
ghost use Rattle.pf_script.specs.Plan.Parsing.{end_fault};
ghost use Rattle.pf_script.specs.PlanCheck.Checked.{after_second, bad_if, faults_at_end, heading_of, is_right_heading, with_fault};
ghost use Rattle.pf_text.specs.Rows.Rows.{rows};

use crate::fields::Fields;
use crate::plan::fault::BadRecord;
use crate::plan::heading::{heading_fault, is_plan_heading};
use crate::plan::state::Progress;
use csv::ByteRecord;
use pf_text::rows::rows::{NextRow, Rows};
use std::alloc::{AllocError, Global};
use std::marker::Model;

/// The faults of a plan that are not found yet. One of its records is in memory at a time, in the record of the
/// caller's. One with a fault is taken as though it were not there, and nothing is carried out. Contracts see what is left: the
/// faults; and how many records were read, and how many there are.
#[derive(Drop)]
pub struct PlanFaults<'a> {
    alloc: Global,
    script: &'a [u8],
    // The heading, where it has a fault that was not told yet.
    heading: Option<BadRecord>,
    rows: Rows<'a>,
    // What came before the next record.
    progress: Progress,
    // How many records were read.
    number: u64,
    ended: bool,
}

impl<'a> Model for PlanFaults<'a> {
    ghost use Rattle.std.specs.Prelude.{◌≡◌, ◌≤◌, ◌<◌, ◌+◌, ◌-◌, ◌^◌, false, length, IfSome};
    ghost use Rattle.pf_script.specs.PlanCheck.Checked.{heading_of};
    ghost use Rattle.pf_script.specs.PlanCheck.Unread.{Unread, unread, unread_under};

    ghost Value = { Unread };

    ghost view = { λ f. unread_under f.heading (heading_of f.script.now) (unread f.ended f.progress f.number f.rows) };

    ghost invariant = { λ f.
        (f.ended ≡ false → f.number + length f.rows.rows < 2 ^ 64 - 2) × IfSome f.heading (λ bad. bad.number ≤ f.number) };
}

impl<'a> PlanFaults<'a> {
    ghost use Rattle.std.specs.Prelude.{◌≡◌, ◌≤◌, ◌<◌, ◌+◌, ◌-◌, ◌^◌, Bool, false, length, IfOk, IfSome, OnOk};
    ghost use Rattle.csv.specs.Records.{fields_of};
    ghost use Rattle.pf_text.specs.Rows.Rows.{rows};
    ghost use Rattle.pf_script.specs.Plan.Progress.{at_heading};
    ghost use Rattle.pf_script.specs.PlanCheck.Checked.{faults, first_fields, heading_of};
    ghost use Rattle.pf_script.specs.PlanCheck.Unread.{ReadsFault, unread, unread_under};

    /// All faults of a script, whose first record is its heading: that is read into `row`, which is empty where there is none.
    ///
    /// # Errors
    ///
    /// Where memory is refused.
    #[tactic(auto, using(crate::proofs::PlanCheckLemmas::Told::few_under))]
    pub fn new(alloc: Global, script: &'a [u8], row: &mut ByteRecord) -> Result<Self, AllocError>
        ensures faults { IfOk result (λ f. f.faults ≡ faults (rows script.now)) }
        ensures records { IfOk result (λ f. f.records ≡ length (rows script.now).rows) }
        ensures few { IfOk result (λ f. (length f.faults ≤ f.records + 1) × (f.records ≤ length script.now + 1)) }
        ensures heading { OnOk result (fields_of row.new ≡ first_fields (rows script.now).rows) }
    {
        let mut rows = Rows::new(alloc, script);
        match rows.next(row)? {
            NextRow::Found(line) => {
                let heading = bad_heading(&Fields::new(row), line);
                match rows_after_second(alloc, script, heading)? {
                    Some(after) => Ok(PlanFaults::at(alloc, script, heading, after, 2, false)),
                    None => Ok(PlanFaults::at(alloc, script, heading, rows, 1, false)),
                }
            }
            NextRow::End(_) => {
                row.clear();
                Ok(PlanFaults::at(alloc, script, None, rows, 0, true))
            }
        }
    }

    /// That of the heading, where it has one, and those after it, where so many records were read.
    fn at(
        alloc: Global,
        script: &'a [u8],
        heading: Option<BadRecord>,
        rows: Rows<'a>,
        number: u64,
        ended: bool,
    ) -> Self
        requires few { ended ≡ false → number + length rows.rows < 2 ^ 64 - 2 }
        requires first { IfSome heading (λ bad. bad.number ≤ number) }
        ensures { result ≡ unread_under heading (heading_of script.now) (unread ended at_heading number rows.entry) }
    {
        PlanFaults {
            alloc,
            script,
            heading,
            rows,
            progress: Progress::new(alloc),
            number,
            ended,
        }
    }

    /// The next fault, and the fields of its record in `row`; `None` after the last one. After the last record a script may lack
    /// one, which has no fields.
    ///
    /// # Errors
    ///
    /// Where memory is refused. Nothing is then promised of a further call.
    pub fn next(&mut self, row: &mut ByteRecord) -> Result<Option<BadRecord>, AllocError>
        ensures { IfOk result (λ found. ReadsFault found (fields_of row.new) self.old self.new) }
    {
        if let Some(bad) = self.heading {
            self.heading = None;
            read_heading(self.alloc, self.script, row)?;
            return Ok(Some(bad));
        }
        if self.ended {
            return Ok(None);
        }
        'rows: loop {
            let Ok(next) = self.rows.next(row) else {
                self.ended = true;
                return Err(AllocError);
            };
            match next {
                NextRow::Found(line) => {
                    self.number += 1;
                    match self.progress.read(&Fields::new(row)) {
                        Ok(said) => self.progress.note(said, 0)?,
                        Err(fault) => {
                            let number = self.number;
                            return Ok(Some(BadRecord {
                                number,
                                line,
                                fault,
                            }));
                        }
                    }
                }
                NextRow::End(line) => {
                    self.ended = true;
                    row.clear();
                    return Ok(lacking(&self.progress, self.number + 1, line));
                }
            }
        }
    }

    /// What came before the next record, or before the one that had the last fault.
    pub fn progress(&self) -> &Progress
        ensures { result.now ≡ self.now.progress }
    {
        &self.progress
    }

    /// How many records were read.
    pub fn records(&self) -> u64
        ensures { result ≡ self.now.read }
    {
        self.number
    }
}

/// A heading that has a fault and stands on this line.
fn bad_heading(heading: &Fields, line: u64) -> Option<BadRecord>
    ensures bad { result ≡ bad_if 1 line (heading_fault heading.now) }
    ensures first { IfSome result (λ bad. bad.number ≡ 1) }
{
    let fault = heading_fault(heading)?;
    Some(BadRecord {
        number: 1,
        line,
        fault,
    })
}

/// What is left of a script after its second record, where that is a right heading and stands after one with a fault.
fn rows_after_second(
    alloc: Global,
    script: &[u8],
    heading: Option<BadRecord>,
) -> Result<Option<Rows<'_>>, AllocError>
    ensures { IfOk result (λ after. after ≡ after_second heading (rows script.now).end (rows script.now).rows) }
{
    if heading.is_none() {
        return Ok(None);
    }
    let mut rows = Rows::new(alloc, script);
    let mut row = ByteRecord::new(alloc);
    let NextRow::Found(_) = rows.next(&mut row)? else {
        return Ok(None);
    };
    let NextRow::Found(_) = rows.next(&mut row)? else {
        return Ok(None);
    };
    Ok(if is_right_heading(&Fields::new(&row)) {
        Some(rows)
    } else {
        None
    })
}

/// Whether a record is a heading without a fault.
fn is_right_heading(fields: &Fields) -> bool
    ensures { result ≡ is_right_heading fields.now }
{
    is_plan_heading(fields) && heading_fault(fields).is_none()
}

/// Reads the first record of a script again, which is empty where there is none.
fn read_heading(alloc: Global, script: &[u8], row: &mut ByteRecord) -> Result<(), AllocError>
    ensures { OnOk result (fields_of row.new ≡ heading_of script.now) }
{
    let mut rows = Rows::new(alloc, script);
    if let NextRow::End(_) = rows.next(row)? {
        row.clear();
    }
    Ok(())
}

/// What a script lacks that ends on this line, where its next record would have this number.
fn lacking(progress: &Progress, number: u64, line: u64) -> Option<BadRecord>
    ensures fault { faults_at_end progress.now number line (end_fault progress.now) ≡ with_fault progress.now result [] [] }
    ensures number { IfSome result (λ bad. bad.number ≡ number) }
{
    let fault = progress.end_fault()?;
    Some(BadRecord {
        number,
        line,
        fault,
    })
}
