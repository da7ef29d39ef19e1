ghost use Rattle.std.specs.Prelude.{◌≡◌, [], IfOk, OnOk};
ghost use Rattle.pf_text.specs.Page.{with_record};
ghost use Rattle.pf_report.specs.Tables.{denial_record, denials_text};

use pf_desk::snapshot::Snapshot;
use pf_run::denied::Denied;
use pf_text::pieces::{Chain, Whole, gathered};
use pf_text::records::{RecordPieces, Records};
use pf_text::table::Table;
use std::alloc::{AllocError, Global};
use std::marker::Model;

/// Adds the record of a denial.
fn push_denied(table: &mut Table, denied: Denied) -> Result<(), AllocError>
    requires { table.old.fields ≡ [] }
    ensures { OnOk result (table.new ≡ with_record table.old (denial_record denied)) }
{
    table.show_number(denied.slot)?;
    table.show_number(denied.id)?;
    table.show_number(denied.denial.code())?;
    table.show(denied.denial.name())?;
    table.end_record()
}

/// The denials of the slots below now, in run order.
#[derive(Drop)]
pub struct DenialRows<'a> {
    denials: &'a [Denied],
}

impl<'a> Model for DenialRows<'a> {
    ghost use Rattle.std.specs.Prelude.{List};
    ghost use Rattle.pf_run.specs.declared.denied.Denied.{Denied};

    ghost Value = { List Denied };

    ghost view = { λ r. r.denials.now };
}

impl<'a> DenialRows<'a> {
    ghost use Rattle.std.specs.Prelude.{◌≡◌, ◌∷◌, ◌+◌, ◌<◌, length, drop};

    /// Those that a snapshot shows.
    pub fn of(snapshot: &'a Snapshot) -> Self
        ensures { result ≡ snapshot.now.denials }
    {
        DenialRows {
            denials: snapshot.denials(),
        }
    }

    /// The one at a place.
    pub fn get(&self, at: u64) -> Denied
        requires { at < length self.now }
        ensures { drop at self.now ≡ result ∷ drop (at + 1) self.now }
    {
        let denials = self.denials;
        denials[at as usize]
    }

    /// How many there are.
    pub fn len(&self) -> u64
        ensures { result ≡ length self.now }
    {
        self.denials.len() as u64
    }
}

impl Records for DenialRows<'_> {
    ghost use Rattle.std.specs.Prelude.{length, drop, map};
    ghost use Rattle.pf_report.specs.Tables.{denial_record};

    ghost count = { λ r. length r };

    ghost rest = { λ r at. map denial_record (drop at r) };

    fn count(&self) -> u64 {
        self.len()
    }

    fn push_record(&self, table: &mut Table, at: u64) -> Result<(), AllocError> {
        push_denied(table, self.get(at))
    }
}

/// The denials of the slots below now as a table, in run order, in pieces: the heading, and then the records.
pub type DenialPieces<'a> = Chain<Whole, RecordPieces<DenialRows<'a>>>;

/// The denials of the slots below now as a table, in run order, in pieces.
///
/// # Errors
///
/// Where memory is refused.
pub fn denial_pieces(alloc: Global, snapshot: &Snapshot) -> Result<DenialPieces<'_>, AllocError>
    ensures { IfOk result (λ pieces. pieces ≡ denials_text snapshot.now) }
{
    let mut table = Table::new(alloc);
    table.push_texts(&["slot", "event", "code", "reason"])?;
    let heading = Whole::new(table.finish()?);
    let rows = DenialRows::of(snapshot);
    Ok(Chain::new(heading, RecordPieces::new(rows)))
}

/// The denials of the slots below now as a table, in run order, in whole.
///
/// # Errors
///
/// Where memory is refused.
pub fn denials_csv(alloc: Global, snapshot: &Snapshot) -> Result<Vec<u8>, AllocError>
    ensures { IfOk result (λ text. text.items ≡ denials_text snapshot.now) }
{
    gathered(alloc, denial_pieces(alloc, snapshot)?)
}
