ghost use Rattle.std.specs.Prelude.{◌≡◌, ◌∷◌, ◌++◌, [], map, IfOk, OnOk};
ghost use Rattle.std.specs.Fmt.{decimal};
ghost use Rattle.pf_text.specs.Page.{with_record};
ghost use Rattle.pf_report.specs.Script.{heading_records, settings_record, insert_record, name_record, slot_records, step_records, script_text_of, title_records};
ghost use Rattle.pf_text.specs.Page.{table_text};

use pf_desk::snapshot::Snapshot;
use pf_scenario::event::Event;
use pf_scenario::events::Events;
use pf_scenario::settings::{NEAR_HORIZON, Settings};
use pf_text::pieces::{Chain, Pieces, Whole, gathered};
use pf_text::table::Table;
use pf_vocabulary::names::names::Names;
use pf_vocabulary::names::slot_length::SlotLength;
use pf_vocabulary::names::titles::Titles;
use std::alloc::{AllocError, Global};
use std::marker::Model;

/// Adds a record of a word and these numbers.
fn push_words(table: &mut Table, word: &str, numbers: &[u64]) -> Result<(), AllocError>
    requires { table.old.fields ≡ [] }
    ensures { OnOk result (table.new ≡ with_record table.old (word.now ∷ map decimal numbers.now)) }
{
    table.show(word)?;
    for number in numbers {
        table.show_number(*number)?;
    }
    table.end_record()
}

/// The record of a word and these numbers.
fn record_text(alloc: Global, word: &str, numbers: &[u64]) -> Result<Vec<u8>, AllocError>
    ensures { IfOk result (λ text. text.items ≡ table_text ((word.now ∷ map decimal numbers.now) ∷ [])) }
{
    let mut table = Table::new(alloc);
    push_words(&mut table, word, numbers)?;
    table.finish()
}

/// Adds the record that inserts an event.
fn push_insert(table: &mut Table, event: Event) -> Result<(), AllocError>
    requires { table.old.fields ≡ [] }
    ensures { OnOk result (table.new ≡ with_record table.old (insert_record event)) }
{
    match event {
        Event::Join {
            slot,
            task,
            cost,
            period,
            early,
        } => push_words(table, "join", &[slot, task, cost, period, early]),
        Event::Leave { slot, task } => push_words(table, "leave", &[slot, task]),
        Event::Delay { slot, task, by } => push_words(table, "delay", &[slot, task, by]),
        Event::Limit { slot, count } => push_words(table, "limit", &[slot, count]),
    }
}

/// The records that insert some events, in their order: each piece has as many of them as make it long.
#[derive(Drop)]
pub struct InsertPieces<'a> {
    events: Events<'a>,
}

impl<'a> Model for InsertPieces<'a> {
    ghost use Rattle.std.specs.Prelude.{ℕ, List};
    ghost use Rattle.pf_report.specs.Script.{insert_records};
    ghost use Rattle.pf_text.specs.Page.{table_text};

    ghost Value = { List ℕ };

    ghost view = { λ p. table_text (insert_records p.events) };
}

impl Pieces for InsertPieces<'_> {
    ghost left = { λ p. p };

    ghost outcome = { λ _. tt };

    fn next_piece(&mut self, alloc: Global) -> Result<Option<Vec<u8>>, AllocError> {
        let Some(first) = self.events.next() else {
            return Ok(None);
        };
        let mut table = Table::new(alloc);
        push_insert(&mut table, first.event)?;
        'events: while !table.is_long() {
            let Some(next) = self.events.next() else {
                break;
            };
            push_insert(&mut table, next.event)?;
        }
        Ok(Some(table.finish()?))
    }
}

/// The heading of a plan, and of one of wide settings; nothing for others.
fn heading_text(alloc: Global, settings: Settings, titles: &Titles) -> Result<Vec<u8>, AllocError>
    ensures { IfOk result (λ text. text.items ≡ table_text (heading_records settings titles.now)) }
{
    let mut table = Table::new(alloc);
    if titles.is_plan {
        table.push_texts(&["plan", "1"])?;
    } else if settings.horizon() != NEAR_HORIZON {
        table.push_texts(&["pfair", "2"])?;
    }
    table.finish()
}

/// The record of the length of a slot; nothing where that is not told.
fn slot_text(alloc: Global, slot: Option<SlotLength>) -> Result<Vec<u8>, AllocError>
    ensures { IfOk result (λ text. text.items ≡ table_text (slot_records slot)) }
{
    let mut table = Table::new(alloc);
    if let Some(slot) = slot {
        table.show("slot")?;
        table.show_number(slot.length)?;
        table.show(slot.unit.word())?;
        table.end_record()?;
    }
    table.finish()
}

/// The records of the names, by task.
fn names_text(alloc: Global, names: &Names) -> Result<Vec<u8>, AllocError>
    ensures { IfOk result (λ text. text.items ≡ table_text (map name_record names.now)) }
{
    let mut table = Table::new(alloc);
    for named in names.all() {
        table.show("name")?;
        table.show_number(named.task)?;
        table.show(named.name.as_str())?;
        table.end_record()?;
    }
    table.finish()
}

/// The records of what the desk does not hold: the length of a slot, and the names.
fn titles_text(alloc: Global, titles: &Titles) -> Result<Vec<u8>, AllocError>
    ensures { IfOk result (λ text. text.items ≡ table_text (title_records titles.now)) }
{
    let mut text = slot_text(alloc, titles.slot)?;
    text.extend_from_slice(&names_text(alloc, &titles.names)?)?;
    Ok(text)
}

/// The settings, after the heading where the script has one.
fn settings_text(
    alloc: Global,
    settings: Settings,
    every: u64,
    titles: &Titles,
) -> Result<Vec<u8>, AllocError>
    ensures { IfOk result (λ text.
        text.items ≡ table_text (heading_records settings titles.now) ++ table_text (settings_record settings every ∷ [])) }
{
    let processors = u64::from(settings.processors());
    let base = u64::from(settings.base().get());
    let numbers = [processors, base, settings.cap(), every];
    let mut text = heading_text(alloc, settings, titles)?;
    text.extend_from_slice(&record_text(alloc, "settings", &numbers)?)?;
    Ok(text)
}

/// What a script begins with: the settings, and what the desk does not hold.
fn opening_text(
    alloc: Global,
    settings: Settings,
    every: u64,
    titles: &Titles,
) -> Result<Vec<u8>, AllocError>
    ensures { IfOk result (λ text. text.items
        ≡ (table_text (heading_records settings titles.now) ++ table_text (settings_record settings every ∷ []))
        ++ table_text (title_records titles.now)) }
{
    let mut text = settings_text(alloc, settings, every, titles)?;
    text.extend_from_slice(&titles_text(alloc, titles)?)?;
    Ok(text)
}

/// What a script ends with: the steps, where there are some.
fn steps_text(alloc: Global, count: u64) -> Result<Vec<u8>, AllocError>
    ensures { IfOk result (λ text. text.items ≡ table_text (step_records count)) }
{
    if count == 0 {
        return Ok(Vec::new(alloc));
    }
    record_text(alloc, "step", &[count])
}

/// A script in pieces: its opening, then the events, then the steps.
pub type ScriptPieces<'a> = Chain<Whole, Chain<InsertPieces<'a>, Whole>>;

/// A script of what was seen, in pieces: the heading `plan,1` in a plan, else `pfair,2` where the settings are wide; the
/// settings, with `every` slots between checkpoints, which a snapshot does not tell; in a plan the length of a slot and the
/// names; an insert for each event held, by number; the steps, where there are some. Scripts with ordinary settings have no limits of processors: where such a desk holds one, its record stands
/// here too, but no script of that version may have it.
///
/// # Errors
///
/// Where memory is refused.
pub fn script_pieces<'a>(
    alloc: Global,
    snapshot: &'a Snapshot,
    every: u64,
    titles: &Titles,
) -> Result<ScriptPieces<'a>, AllocError>
    ensures { IfOk result (λ pieces. pieces ≡ script_text_of every snapshot.now titles.now) }
{
    let opening = Whole::new(opening_text(alloc, snapshot.settings(), every, titles)?);
    let steps = Whole::new(steps_text(alloc, snapshot.now())?);
    let inserts = InsertPieces {
        events: snapshot.events(),
    };
    Ok(Chain::new(opening, Chain::new(inserts, steps)))
}

/// The same script in whole.
///
/// # Errors
///
/// Where memory is refused.
pub fn script_text(
    alloc: Global,
    snapshot: &Snapshot,
    every: u64,
    titles: &Titles,
) -> Result<Vec<u8>, AllocError>
    ensures { IfOk result (λ text. text.items ≡ script_text_of every snapshot.now titles.now) }
{
    gathered(alloc, script_pieces(alloc, snapshot, every, titles)?)
}
