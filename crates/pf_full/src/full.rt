ghost use Rattle.std.specs.Prelude.{◌≡◌, ◌++◌, codes, IfOk};
ghost use Rattle.std.specs.Fmt.{decimal};
ghost use Rattle.serde_json.specs.Data.{array};
ghost use Rattle.serde_json.specs.View.{items_of};
ghost use Rattle.serde_json.specs.Written.{compact_text};
ghost use Rattle.pf_report.specs.Json.{names_part, slot_part};
ghost use Rattle.pf_full.specs.Full.{full_text};
ghost use Rattle.pf_full.specs.Parts.{from_events, from_figures, from_lags, from_refusals, from_schedule, from_settings};

use crate::events::EventRows;
use crate::figures::FigureRows;
use crate::refusal::{Refusal, RefusalRows};
use crate::settings::settings_text;
use crate::titles::{names_part, slot_part};
use pf_desk::snapshot::Snapshot;
use pf_report::denials::DenialRows;
use pf_report::elements::{ArrayPieces, Elements};
use pf_report::lags::LagRows;
use pf_report::misses::MissRows;
use pf_report::schedule::ScheduleRows;
use pf_tally::tally::Tally;
use pf_text::numbers::push_number;
use pf_text::pieces::{Chain, Pieces, Whole};
use pf_vocabulary::names::titles::Titles;
use std::alloc::{AllocError, Global};

/// A key of an object, an array, and what follows.
type Keyed<E, B> = Chain<Whole, Chain<ArrayPieces<E>, B>>;

/// The object from each of its keys on.
type FromSettings = Chain<Whole, Chain<Whole, Whole>>;

type FromSchedule<'a> = Keyed<ScheduleRows<'a>, FromSettings>;

type FromRefusals<'a> = Keyed<RefusalRows, FromSchedule<'a>>;

type FromMisses<'a> = Keyed<MissRows, FromRefusals<'a>>;

type FromLags<'a> = Keyed<LagRows, FromMisses<'a>>;

type FromFigures<'a> = Keyed<FigureRows, Tail<'a>>;

type FromEvents<'a> = Keyed<EventRows, FromFigures<'a>>;

/// A run as a JSON object, in pieces: its keys, and of each array so many elements as make a piece long.
pub type FullPieces<'a> = Keyed<DenialRows<'a>, FromEvents<'a>>;

/// The object from its lags on, as one kind of pieces.
pub struct Tail<'a> {
    pieces: FromLags<'a>,
}

// A call of its own, so that who drops the object sees none of its later parts.
impl Drop for Tail<'_> {
    fn drop(self) {
        let Tail { pieces: _ } = self;
    }
}

impl Pieces for Tail<'_> {
    ghost left = { λ t. t.pieces };

    ghost outcome = { λ _. tt };

    fn next_piece(&mut self, alloc: Global) -> Result<Option<Vec<u8>>, AllocError> {
        self.pieces.next_piece(alloc)
    }
}

/// An array after its key, and what follows.
fn keyed<E: Elements, B: Pieces>(key: Vec<u8>, elements: E, behind: B) -> Keyed<E, B>
    ensures { result ≡ key.items ++ (compact_text (array (items_of (E.rest elements 0))) ++ B.left behind) }
{
    Chain::new(
        Whole::new(key),
        Chain::new(ArrayPieces::new(elements), behind),
    )
}

/// A key, its number, and the key after it.
fn numbered_key(alloc: Global, front: &[u8], number: u64, key: &[u8]) -> Result<Vec<u8>, AllocError>
    ensures { IfOk result (λ text. text.items ≡ front.now ++ (decimal number ++ key.now)) }
{
    let mut text = Vec::from_slice(alloc, front)?;
    push_number(&mut text, number)?;
    text.extend_from_slice(key)?;
    Ok(text)
}

/// What stands before the refused records: the names, where the script is a plan, and how many slots were stepped.
fn refusals_key(alloc: Global, titles: &Titles, now: u64) -> Result<Vec<u8>, AllocError>
    ensures { IfOk result (λ text. text.items ≡ names_part titles.now ++ (codes ",\"now\":" ++ (decimal now ++ codes ",\"refusals\":"))) }
{
    let mut text = names_part(alloc, titles)?;
    let key = numbered_key(alloc, b",\"now\":", now, b",\"refusals\":")?;
    text.extend_from_slice(&key)?;
    Ok(text)
}

/// What stands after the settings: the length of a slot, where the script is a plan, and the object's end.
fn end_text(alloc: Global, titles: &Titles) -> Result<Vec<u8>, AllocError>
    ensures { IfOk result (λ text. text.items ≡ slot_part titles.now ++ codes "}") }
{
    let mut text = slot_part(alloc, titles)?;
    text.push(b'}')?;
    Ok(text)
}

/// The object from its settings on.
fn from_settings(
    alloc: Global,
    snapshot: &Snapshot,
    every: u64,
    titles: &Titles,
) -> Result<FromSettings, AllocError>
    ensures { IfOk result (λ pieces. pieces ≡ from_settings every titles.now snapshot.now) }
{
    let key = Whole::new(Vec::from_slice(alloc, b",\"settings\":")?);
    let settings = Whole::new(settings_text(alloc, snapshot.settings(), every)?);
    let end = Whole::new(end_text(alloc, titles)?);
    Ok(Chain::new(key, Chain::new(settings, end)))
}

/// The object from its schedule on.
fn from_schedule<'a>(
    alloc: Global,
    snapshot: &'a Snapshot,
    every: u64,
    titles: &Titles,
) -> Result<FromSchedule<'a>, AllocError>
    ensures { IfOk result (λ pieces. pieces ≡ from_schedule every titles.now snapshot.now) }
{
    let key = Vec::from_slice(alloc, b",\"schedule\":")?;
    let behind = from_settings(alloc, snapshot, every, titles)?;
    Ok(keyed(key, ScheduleRows::of(snapshot), behind))
}

/// The object from its slots stepped on.
fn from_refusals<'a>(
    alloc: Global,
    snapshot: &'a Snapshot,
    every: u64,
    titles: &Titles,
    refusals: Vec<Refusal>,
) -> Result<FromRefusals<'a>, AllocError>
    ensures { IfOk result (λ pieces. pieces ≡ from_refusals every titles.now refusals.items snapshot.now) }
{
    let key = refusals_key(alloc, titles, snapshot.now())?;
    let behind = from_schedule(alloc, snapshot, every, titles)?;
    Ok(keyed(key, RefusalRows::of(refusals), behind))
}

/// The object from its lags on.
fn from_lags<'a>(
    alloc: Global,
    snapshot: &'a Snapshot,
    every: u64,
    titles: &Titles,
    refusals: Vec<Refusal>,
) -> Result<FromLags<'a>, AllocError>
    ensures { IfOk result (λ pieces. pieces ≡ from_lags every titles.now refusals.items snapshot.now) }
{
    let misses_key = Vec::from_slice(alloc, b",\"misses\":")?;
    let lags_key = Vec::from_slice(alloc, b",\"lags\":")?;
    let Tally { lags, misses } = snapshot.tally()?;
    let behind = from_refusals(alloc, snapshot, every, titles, refusals)?;
    let misses = keyed(misses_key, MissRows::of(misses), behind);
    Ok(keyed(lags_key, LagRows::of(lags), misses))
}

/// The object from its figures on.
fn from_figures<'a>(
    alloc: Global,
    snapshot: &'a Snapshot,
    every: u64,
    titles: &Titles,
    refusals: Vec<Refusal>,
) -> Result<FromFigures<'a>, AllocError>
    ensures { IfOk result (λ pieces. pieces ≡ from_figures every titles.now refusals.items snapshot.now) }
{
    let key = Vec::from_slice(alloc, b",\"figures\":")?;
    let figures = FigureRows::of(snapshot.figures()?);
    let pieces = from_lags(alloc, snapshot, every, titles, refusals)?;
    Ok(keyed(key, figures, Tail { pieces }))
}

/// The object from its entries on.
fn from_events<'a>(
    alloc: Global,
    snapshot: &'a Snapshot,
    every: u64,
    titles: &Titles,
    refusals: Vec<Refusal>,
) -> Result<FromEvents<'a>, AllocError>
    ensures { IfOk result (λ pieces. pieces ≡ from_events every titles.now refusals.items snapshot.now) }
{
    let key = numbered_key(alloc, b",\"entries\":", snapshot.version(), b",\"events\":")?;
    let events = EventRows::of(alloc, snapshot)?;
    let behind = from_figures(alloc, snapshot, every, titles, refusals)?;
    Ok(keyed(key, events, behind))
}

/// All that a run tells as one JSON object, in pieces: compact, its keys in byte order. Beside what the report has these are
/// the events held, the figures of the tasks, the records of which a command was refused, and the settings, with so many
/// slots between checkpoints; in a plan the names of tasks and the length of a slot. The lags, the missed windows, the events and the figures are in memory until they are written.
///
/// # Errors
///
/// Where memory is refused.
pub fn full_pieces<'a>(
    alloc: Global,
    snapshot: &'a Snapshot,
    every: u64,
    titles: &Titles,
    refusals: Vec<Refusal>,
) -> Result<FullPieces<'a>, AllocError>
    ensures { IfOk result (λ pieces. pieces ≡ full_text every titles.now refusals.items snapshot.now) }
{
    let key = Vec::from_slice(alloc, b"{\"denials\":")?;
    let behind = from_events(alloc, snapshot, every, titles, refusals)?;
    Ok(keyed(key, DenialRows::of(snapshot), behind))
}
