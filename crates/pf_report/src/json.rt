ghost use Rattle.std.specs.Prelude.{◌≡◌, ◌++◌, codes, length, IfOk};
ghost use Rattle.std.specs.Fmt.{decimal};
ghost use Rattle.serde_json.specs.Data.{array};
ghost use Rattle.serde_json.specs.View.{items_of, view};
ghost use Rattle.serde_json.specs.Written.{compact_text};
ghost use Rattle.pf_vocabulary.specs.Names.Titled.{untitled};
ghost use Rattle.pf_place.specs.Lent.{lent_row};
ghost use Rattle.pf_report.specs.Json.{array_data, sitter_data, denial_data, lag_data, miss_data, json_text, names_part, slot_part};

use crate::denials::DenialRows;
use crate::elements::{ArrayPieces, Elements};
use crate::lags::LagRows;
use crate::misses::MissRows;
use crate::names::{names_part, slot_part};
use crate::schedule::ScheduleRows;
use pf_desk::rows::{row_at, row_count};
use pf_desk::snapshot::Snapshot;
use pf_order::pick::Pick;
use pf_place::row_view::RowView;
use pf_run::denied::Denied;
use pf_tally::lag::Lag;
use pf_tally::miss::Miss;
use pf_tally::tally::Tally;
use pf_text::pieces::{Chain, Pieces, Whole, gathered};
use pf_vocabulary::names::titles::Titles;
use serde_json::{Value, json};
use std::alloc::{AllocError, Global};

/// A denial as an object.
fn denied_value(alloc: Global, denied: Denied) -> Result<Value, AllocError>
    ensures { IfOk result (λ v. view v ≡ denial_data denied) }
{
    json!(in alloc; {
        "code": denied.denial.code(),
        "event": denied.id,
        "reason": denied.denial.name(),
        "slot": denied.slot
    })
}

/// A lag as an object.
fn lag_value(alloc: Global, lag: Lag) -> Result<Value, AllocError>
    ensures { IfOk result (λ v. view v ≡ lag_data lag) }
{
    json!(in alloc; {
        "cost": lag.cost,
        "lag": lag.scaled,
        "period": lag.period,
        "received": lag.received,
        "task": lag.task
    })
}

/// A missed window as an object.
fn miss_value(alloc: Global, miss: Miss) -> Result<Value, AllocError>
    ensures { IfOk result (λ v. view v ≡ miss_data miss) }
{
    let ran = match miss.ran {
        Some(slot) => Value::from(slot),
        None => Value::Null,
    };
    json!(in alloc; {
        "deadline": miss.deadline,
        "ran": ran,
        "sub": miss.sub,
        "task": miss.task
    })
}

/// Who sits on a processor, as a pair.
fn sitter_value(alloc: Global, sitter: Option<Pick>) -> Result<Value, AllocError>
    ensures { IfOk result (λ v. view v ≡ sitter_data sitter) }
{
    match sitter {
        Some(pick) => json!(in alloc; [pick.task, pick.sub]),
        None => Ok(Value::Null),
    }
}

/// A row, by processor.
fn row_value(alloc: Global, processors: u32, row: RowView<'_>) -> Result<Value, AllocError>
    requires { length (lent_row row) ≡ processors }
    ensures { IfOk result (λ v. view v ≡ array_data sitter_data (lent_row row.entry)) }
{
    let mut values = Vec::with_capacity(alloc, processors as usize)?;
    for processor in 0..processors {
        values.push(sitter_value(alloc, row.get(processor))?)?;
    }
    Ok(Value::Array(values))
}

impl Elements for DenialRows<'_> {
    ghost use Rattle.std.specs.Prelude.{length, drop, map};
    ghost use Rattle.pf_report.specs.Json.{denial_data};

    ghost count = { λ r. length r };

    ghost rest = { λ r at. map denial_data (drop at r) };

    fn count(&self) -> u64 {
        self.len()
    }

    fn element(&self, alloc: Global, at: u64) -> Result<Value, AllocError> {
        denied_value(alloc, self.get(at))
    }
}

impl Elements for LagRows {
    ghost use Rattle.std.specs.Prelude.{length, drop, map};
    ghost use Rattle.pf_report.specs.Json.{lag_data};

    ghost count = { λ r. length r };

    ghost rest = { λ r at. map lag_data (drop at r) };

    fn count(&self) -> u64 {
        self.len()
    }

    fn element(&self, alloc: Global, at: u64) -> Result<Value, AllocError> {
        lag_value(alloc, self.get(at))
    }
}

impl Elements for MissRows {
    ghost use Rattle.std.specs.Prelude.{length, drop, map};
    ghost use Rattle.pf_report.specs.Json.{miss_data};

    ghost count = { λ r. length r };

    ghost rest = { λ r at. map miss_data (drop at r) };

    fn count(&self) -> u64 {
        self.len()
    }

    fn element(&self, alloc: Global, at: u64) -> Result<Value, AllocError> {
        miss_value(alloc, self.get(at))
    }
}

impl Elements for ScheduleRows<'_> {
    ghost use Rattle.std.specs.Prelude.{length, drop, map};
    ghost use Rattle.pf_report.specs.Json.{array_data, sitter_data};

    ghost count = { λ s. length s.rows };

    ghost rest = { λ s at. map (array_data sitter_data) (drop at s.rows) };

    fn count(&self) -> u64 {
        row_count(self.snapshot())
    }

    fn element(&self, alloc: Global, at: u64) -> Result<Value, AllocError> {
        let snapshot = self.snapshot();
        let processors = snapshot.settings().processors();
        row_value(alloc, processors, row_at(snapshot, at))
    }
}

/// A key of an object, an array, and what follows.
type KeyedArray<E, B> = Chain<Whole, Chain<ArrayPieces<E>, B>>;

/// A report as a JSON object, in pieces: its keys, and of each array so many elements as make a piece long.
pub type JsonPieces<'a> = KeyedArray<
    DenialRows<'a>,
    KeyedArray<LagRows, KeyedArray<MissRows, KeyedArray<ScheduleRows<'a>, Whole>>>,
>;

/// An array after its key, and what follows.
fn keyed<E: Elements, B: Pieces>(key: Vec<u8>, elements: E, behind: B) -> KeyedArray<E, B>
    ensures { result ≡ key.items ++ (compact_text (array (items_of (E.rest elements 0))) ++ B.left behind) }
{
    Chain::new(
        Whole::new(key),
        Chain::new(ArrayPieces::new(elements), behind),
    )
}

/// What stands before the schedule: the names, where the script is a plan, and how many slots were stepped.
fn schedule_key(alloc: Global, titles: &Titles, now: u64) -> Result<Vec<u8>, AllocError>
    ensures { IfOk result (λ text. text.items ≡ names_part titles.now ++ (codes ",\"now\":" ++ (decimal now ++ codes ",\"schedule\":"))) }
{
    let mut text = names_part(alloc, titles)?;
    let key = format!(in alloc; ",\"now\":{now},\"schedule\":")?;
    text.extend_from_slice(key.as_bytes())?;
    Ok(text)
}

/// What stands after the schedule: the length of a slot, where the script is a plan, and the object's end.
fn end_text(alloc: Global, titles: &Titles) -> Result<Vec<u8>, AllocError>
    ensures { IfOk result (λ text. text.items ≡ slot_part titles.now ++ codes "}") }
{
    let mut text = slot_part(alloc, titles)?;
    text.push(b'}')?;
    Ok(text)
}

/// The whole report as one JSON object, in pieces: compact, its keys in byte order. In a plan it tells the names of tasks and
/// the length of a slot too. The lags and the missed windows are in memory until it is written.
///
/// # Errors
///
/// Where memory is refused.
pub fn json_pieces<'a>(
    alloc: Global,
    snapshot: &'a Snapshot,
    titles: &Titles,
) -> Result<JsonPieces<'a>, AllocError>
    ensures { IfOk result (λ pieces. pieces ≡ json_text snapshot.now titles.now) }
{
    let entries = snapshot.version();
    let now = snapshot.now();
    let denials_key = Vec::from_slice(alloc, b"{\"denials\":")?;
    let lags_key = format!(in alloc; ",\"entries\":{entries},\"lags\":")?.into_bytes();
    let misses_key = Vec::from_slice(alloc, b",\"misses\":")?;
    let schedule_key = schedule_key(alloc, titles, now)?;
    let end = end_text(alloc, titles)?;
    let Tally { lags, misses } = snapshot.tally()?;
    let schedule = keyed(schedule_key, ScheduleRows::of(snapshot), Whole::new(end));
    let misses = keyed(misses_key, MissRows::of(misses), schedule);
    let lags = keyed(lags_key, LagRows::of(lags), misses);
    Ok(keyed(denials_key, DenialRows::of(snapshot), lags))
}

/// The whole report as one JSON object, without names: compact, its keys in byte order.
///
/// # Errors
///
/// Where memory is refused.
pub fn report_json(alloc: Global, snapshot: &Snapshot) -> Result<Vec<u8>, AllocError>
    ensures { IfOk result (λ text. text.items ≡ json_text snapshot.now untitled) }
{
    let titles = Titles::none(alloc);
    gathered(alloc, json_pieces(alloc, snapshot, &titles)?)
}
