ghost use Rattle.std.specs.Prelude.{◌≡◌, [], IfOk, OnOk};
ghost use Rattle.pf_vocabulary.specs.Names.Titled.{untitled};
ghost use Rattle.pf_text.specs.Page.{with_record};
ghost use Rattle.pf_report.specs.Tables.{lags_table, lags_text, named_lag_record};

use pf_desk::snapshot::Snapshot;
use pf_tally::lag::Lag;
use pf_text::pieces::{Chain, Whole, gathered};
use pf_text::records::{RecordPieces, Records};
use pf_text::table::Table;
use pf_vocabulary::name_column::column::{push_heading, show_name};
use pf_vocabulary::names::titles::Titles;
use std::alloc::{AllocError, Global};
use std::marker::Model;

/// Adds the record of a lag.
fn push_lag(table: &mut Table, lag: Lag, titles: &Titles) -> Result<(), AllocError>
    requires { table.old.fields ≡ [] }
    ensures { OnOk result (table.new ≡ with_record table.old (named_lag_record titles.now lag)) }
{
    let task = u64::from(lag.task);
    table.show_number(task)?;
    table.show_number(lag.cost)?;
    table.show_number(lag.period)?;
    table.show_number(lag.received)?;
    table.show(lag.scaled)?;
    show_name(table, titles, task)?;
    table.end_record()
}

/// The lags of the tasks inside, by task number.
#[derive(Drop)]
pub struct LagRows {
    lags: Vec<Lag>,
}

impl Model for LagRows {
    ghost use Rattle.std.specs.Prelude.{List};
    ghost use Rattle.pf_tally.specs.declared.lag.Lag.{Lag};

    ghost Value = { List Lag };

    ghost view = { λ r. r.lags.items };
}

impl LagRows {
    ghost use Rattle.std.specs.Prelude.{◌≡◌, ◌∷◌, ◌+◌, ◌<◌, length, drop};

    /// The records of these lags.
    pub fn of(lags: Vec<Lag>) -> Self
        ensures { result ≡ lags.items }
    {
        LagRows { lags }
    }

    /// The one at a place.
    pub fn get(&self, at: u64) -> Lag
        requires { at < length self.now }
        ensures { drop at self.now ≡ result ∷ drop (at + 1) self.now }
    {
        self.lags[at as usize]
    }

    /// How many there are.
    pub fn len(&self) -> u64
        ensures { result ≡ length self.now }
    {
        self.lags.len() as u64
    }
}

/// The lags of the tasks inside, by task number, and what the script calls these.
#[derive(Drop)]
pub struct NamedLagRows<'a> {
    rows: LagRows,
    titles: &'a Titles,
}

impl<'a> Model for NamedLagRows<'a> {
    ghost use Rattle.pf_report.specs.Tables.{NamedLags};

    ghost Value = { NamedLags };

    ghost view = { λ r. record { lags = r.rows; titles = r.titles.now } };
}

impl Records for NamedLagRows<'_> {
    ghost use Rattle.std.specs.Prelude.{length, drop, map};
    ghost use Rattle.pf_report.specs.Tables.{named_lag_record};

    ghost count = { λ r. length r.lags };

    ghost rest = { λ r at. map (named_lag_record r.titles) (drop at r.lags) };

    fn count(&self) -> u64 {
        self.rows.len()
    }

    fn push_record(&self, table: &mut Table, at: u64) -> Result<(), AllocError> {
        push_lag(table, self.rows.get(at), self.titles)
    }
}

/// How far each task inside is from its fair share, as a table, by task number, in pieces: the heading, and then the records.
pub type LagPieces<'a> = Chain<Whole, RecordPieces<NamedLagRows<'a>>>;

/// How far each task inside is from its fair share, as a table, by task number, in pieces. In a plan the name of the task
/// stands last, or nothing where it has none.
///
/// # Errors
///
/// Where memory is refused.
pub fn lag_pieces<'a>(
    alloc: Global,
    snapshot: &Snapshot,
    titles: &'a Titles,
) -> Result<LagPieces<'a>, AllocError>
    ensures { IfOk result (λ pieces. pieces ≡ lags_text snapshot.now titles.now) }
{
    pieces_of_lags(alloc, snapshot.lags()?, titles)
}

/// The table of these lags, as `lag_pieces` has it.
///
/// # Errors
///
/// Where memory is refused.
pub fn pieces_of_lags<'a>(
    alloc: Global,
    lags: Vec<Lag>,
    titles: &'a Titles,
) -> Result<LagPieces<'a>, AllocError>
    ensures { IfOk result (λ pieces. pieces ≡ lags_table lags.items titles.now) }
{
    let mut table = Table::new(alloc);
    let texts = ["task", "cost", "period", "received", "lag"];
    push_heading(&mut table, &texts, titles)?;
    let heading = Whole::new(table.finish()?);
    let rows = LagRows::of(lags);
    let named = NamedLagRows { rows, titles };
    Ok(Chain::new(heading, RecordPieces::new(named)))
}

/// How far each task inside is from its fair share, as a table without names, by task number, in whole.
///
/// # Errors
///
/// Where memory is refused.
pub fn lags_csv(alloc: Global, snapshot: &Snapshot) -> Result<Vec<u8>, AllocError>
    ensures { IfOk result (λ text. text.items ≡ lags_text snapshot.now untitled) }
{
    let titles = Titles::none(alloc);
    gathered(alloc, lag_pieces(alloc, snapshot, &titles)?)
}
