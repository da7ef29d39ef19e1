ghost use Rattle.std.specs.Prelude.{◌≡◌, true, IfOk, OnOk};
ghost use Rattle.pf_plain_script.specs.Plain.{desk_behind, given};

use crate::carried::Carried;
use crate::origin::Origin;
use crate::plain::PlainScript;
use crate::writing::{push_line, push_settings};
use pf_script::line::Line;
use pf_script::plan::fault::{BadRecord, RecordFault};
use pf_script::plan::said::Said;
use pf_script::plan::state::Progress;
use pf_text::table::Table;
use pf_vocabulary::names::titles::Titles;
use std::alloc::{AllocError, Global};

/// A script of version 2 on its way.
#[derive(Drop)]
pub(crate) struct PlainWriter {
    alloc: Global,
    /// What came before the next record.
    pub(crate) progress: Progress,
    // The desk, after the settings.
    desk: Option<Carried>,
    table: Table,
    origins: Vec<Origin>,
}

impl PlainWriter {
    ghost use Rattle.std.specs.Prelude.{◌≡◌, true, [], Some, IfOk, OnOk};
    ghost use Rattle.pf_plain_script.specs.Plain.{desk_behind, ended, given, titles_of};
    ghost use Rattle.pf_plain_script.specs.Ways.{Ends, HasTaken, HasWritten, IsFresh};
    ghost use Rattle.pf_script.specs.Plan.Parsing.{end_fault};

    /// The heading, which stands there.
    pub(crate) fn new(alloc: Global, origin: Origin) -> Result<Self, AllocError>
        ensures { IfOk result (IsFresh origin) }
    {
        let mut table = Table::new(alloc);
        table.show("pfair")?;
        table.show("2")?;
        table.end_record()?;
        let mut origins = Vec::new(alloc);
        origins.push(origin)?;
        Ok(PlainWriter {
            alloc,
            progress: Progress::new(alloc),
            desk: None,
            table,
            origins,
        })
    }

    /// Adds the records of what was said, and notes it.
    pub(crate) fn take(&mut self, said: Said, origin: Origin) -> Result<(), AllocError>
        requires { self.old.table.fields ≡ [] }
        ensures { OnOk result (HasTaken origin said self.old self.new) }
    {
        let number = self.write(&said, origin)?;
        self.progress.note(said, number)
    }

    /// Adds the records of what was said, and gives the number of the event, where it has a label.
    fn write(&mut self, said: &Said, origin: Origin) -> Result<u64, AllocError>
        requires { self.old.table.fields ≡ [] }
        ensures { IfOk result (λ number. HasWritten origin said.now number self.old self.new) }
    {
        match said {
            Said::Settings(opening) => {
                push_settings(&mut self.table, opening)?;
                self.origins.push(origin)?;
                self.desk = Some(Carried::open(self.alloc, opening.settings)?);
                Ok(0)
            }
            Said::Slot(_) | Said::Name(..) => Ok(0),
            Said::Asks(line, label) => {
                push_line(&mut self.table, *line)?;
                self.origins.push(origin)?;
                carry_out(&mut self.desk, *line, label.is_some())
            }
        }
    }

    /// Ends the script, which the text does there: the record of this number is none.
    pub(crate) fn end(self, origin: Origin) -> Result<PlainScript, AllocError>
        requires { self.table.fields ≡ [] }
        ensures { IfOk result (Ends self (ended self.progress origin (end_fault self.progress))) }
    {
        match self.progress.end_fault() {
            Some(fault) => self.stop(origin, fault),
            None => self.finish(None, origin.number.saturating_sub(1)),
        }
    }

    /// Ends the script in a bad record, which has this fault.
    pub(crate) fn stop(
        mut self,
        origin: Origin,
        fault: RecordFault,
    ) -> Result<PlainScript, AllocError>
        requires { self.table.fields ≡ [] }
        ensures { IfOk result (Ends self (ended self.progress origin (Some fault))) }
    {
        self.table.show_nothing()?;
        self.table.end_record()?;
        self.origins.push(origin)?;
        let bad = BadRecord {
            number: origin.number,
            line: origin.line,
            fault,
        };
        self.finish(Some(bad), origin.number)
    }

    /// Ends the script, whose last record has this number.
    fn finish(self, bad: Option<BadRecord>, last: u64) -> Result<PlainScript, AllocError>
        ensures { IfOk result
            (Ends self (record { records = []; origins = []; titles = titles_of self.progress; bad = bad; last = last })) }
    {
        let text = self.table.finish()?;
        Ok(PlainScript {
            text,
            origins: self.origins,
            titles: Titles {
                is_plan: true,
                names: self.progress.names,
                slot: self.progress.slot,
            },
            bad,
            last,
        })
    }
}

/// Carries a line out, and gives the number of its event where that is asked for, else 0.
fn carry_out(desk: &mut Option<Carried>, line: Line, is_labelled: bool) -> Result<u64, AllocError>
    ensures desk { OnOk result (desk.new ≡ desk_behind desk.old line) }
    ensures number { IfOk result (λ number. is_labelled ≡ true → number ≡ given desk.old line) }
{
    let Some(desk) = desk else {
        return Ok(0);
    };
    if is_labelled {
        return desk.number(line);
    }
    desk.wait(line)?;
    Ok(0)
}
