ghost use Rattle.std.specs.Prelude.{◌≡◌, ◌≤◌, [], length, IfOk, OnOk};
ghost use Rattle.pf_run.specs.Computed.{run_of};
ghost use Rattle.pf_tally.specs.Levels.{levels_of};
ghost use Rattle.pf_text.specs.Page.{with_record};
ghost use Rattle.pf_jobs.specs.Load.{level_record, load_text};

use pf_desk::snapshot::Snapshot;
use pf_tally::level::Level;
use pf_tally::levels::levels;
use pf_text::pieces::{Chain, Whole};
use pf_text::records::{RecordPieces, Records};
use pf_text::table::Table;
use std::alloc::{AllocError, Global};
use std::marker::Model;

/// Adds the record of a level.
fn push_level(table: &mut Table, level: Level) -> Result<(), AllocError>
    requires { table.old.fields ≡ [] }
    ensures { OnOk result (table.new ≡ with_record table.old (level_record level)) }
{
    table.show_number(level.slot)?;
    table.show_number(level.load)?;
    table.show_number(level.room)?;
    table.end_record()
}

/// The levels of a range of slots, by slot.
#[derive(Drop)]
pub struct LevelRows {
    levels: Vec<Level>,
}

impl Model for LevelRows {
    ghost use Rattle.std.specs.Prelude.{List};
    ghost use Rattle.pf_tally.specs.declared.level.Level.{Level};

    ghost Value = { List Level };

    ghost view = { λ r. r.levels.items };
}

impl Records for LevelRows {
    ghost use Rattle.std.specs.Prelude.{length, drop, map};
    ghost use Rattle.pf_jobs.specs.Load.{level_record};

    ghost count = { λ r. length r };

    ghost rest = { λ r at. map level_record (drop at r) };

    fn count(&self) -> u64 {
        self.levels.len() as u64
    }

    fn push_record(&self, table: &mut Table, at: u64) -> Result<(), AllocError> {
        push_level(table, self.levels[at as usize])
    }
}

/// The levels that a snapshot shows of the slots from `from` on and below `to`.
fn levels_of(
    alloc: Global,
    snapshot: &Snapshot,
    from: u64,
    to: u64,
) -> Result<Vec<Level>, AllocError>
    requires order { from ≤ to }
    requires within { to ≤ snapshot.now.state.now }
    ensures { IfOk result (λ v. v.items ≡ levels_of snapshot.now.state.plan (run_of snapshot.now.state.plan snapshot.now.state.now) from to) }
{
    // That the rows are those of the scenario's run is known from its calls alone.
    let _ = snapshot.now();
    levels(
        alloc,
        snapshot.scenario(),
        snapshot.rows(),
        snapshot.denials(),
        from,
        to,
    )
}

/// The load and the room of the slots from `from` on and below `to` as a table, in pieces: the heading, and then the
/// records.
pub type LoadPieces = Chain<Whole, RecordPieces<LevelRows>>;

/// The load and the room of the slots from `from` on and below `to` as a table, in pieces: a line for slot `from`, and one
/// for each slot after it in which one of the two is another than in the slot before. Both are in units of 1/h of a
/// processor: what the tasks inside ask for, and what the processors in use have.
///
/// # Errors
///
/// Where memory is refused.
pub fn load_pieces(
    alloc: Global,
    snapshot: &Snapshot,
    from: u64,
    to: u64,
) -> Result<LoadPieces, AllocError>
    requires order { from ≤ to }
    requires within { to ≤ snapshot.now.state.now }
    ensures { IfOk result (λ pieces. pieces ≡ load_text snapshot.now from to) }
{
    let mut table = Table::new(alloc);
    table.push_texts(&["slot", "load", "room"])?;
    let heading = Whole::new(table.finish()?);
    let levels = levels_of(alloc, snapshot, from, to)?;
    Ok(Chain::new(heading, RecordPieces::new(LevelRows { levels })))
}
