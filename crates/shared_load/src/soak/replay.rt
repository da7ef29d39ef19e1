use crate::soak::fault::Fault;
use crate::soak::worker::EVERY;
use pf_desk::desk::Desk;
use pf_desk::entry_view::EntryView;
use pf_desk::reply_view::ReplyView;
use pf_order::meter::Meter;
use pf_place::row_view::RowView;
use pf_scenario::settings::Settings;
use std::alloc::Global;

/// The most processors of a desk.
pub(crate) const MOST_PROCESSORS: u32 = 64;

/// Whether the rows have the same picks.
fn is_same_row(one: RowView<'_>, other: RowView<'_>) -> bool {
    for processor in 0..MOST_PROCESSORS {
        if one.get(processor) != other.get(processor) {
            return false;
        }
    }
    one.processors() == other.processors()
}

/// Whether the replies are the same.
fn is_same_reply(one: ReplyView<'_>, other: ReplyView<'_>) -> bool {
    match (one, other) {
        (ReplyView::Edited { id: one }, ReplyView::Edited { id: other }) => one == other,
        (
            ReplyView::Stepped { slot: one, row },
            ReplyView::Stepped {
                slot: other,
                row: other_row,
            },
        ) => one == other && is_same_row(row, other_row),
        (ReplyView::Refused(one), ReplyView::Refused(other)) => one == other,
        _ => false,
    }
}

/// Answers the entry with this number again on a fresh desk, which is to reply the same.
fn answer_again(
    fresh: &mut Desk,
    meter: &mut Meter,
    at: u64,
    entry: EntryView<'_>,
) -> Result<(), Fault> {
    match fresh.apply(meter, entry.caller, entry.command) {
        Ok(reply) if is_same_reply(reply.view(), entry.reply) => Ok(()),
        Ok(_) => Err(Fault::Reply(at)),
        Err(_) => Err(Fault::NoMemory),
    }
}

/// Answers the desk's history again on a fresh desk.
fn answer_all_again(fresh: &mut Desk, desk: &Desk) -> Result<(), Fault> {
    let mut meter = Meter::new();
    let history = desk.history();
    for at in 0..history.len() {
        let Some(entry) = history.entry(at) else {
            return Err(Fault::Entries(at as u64));
        };
        answer_again(fresh, &mut meter, at as u64, entry)?;
    }
    Ok(())
}

/// Compares the rows of two desks.
fn compare_rows(one: &Desk, other: &Desk) -> Result<(), Fault> {
    if one.now() != other.now() {
        return Err(Fault::Row(one.now()));
    }
    for slot in 0..one.now() {
        match (one.schedule().get(slot), other.schedule().get(slot)) {
            (Some(row), Some(other_row)) if is_same_row(row, other_row) => (),
            _ => return Err(Fault::Row(slot)),
        }
    }
    Ok(())
}

/// Answers the history again on a fresh desk with the same settings, which is to reply the same and to have the same rows.
pub(crate) fn replay(alloc: Global, settings: Settings, desk: &Desk) -> Result<(), Fault> {
    let Ok(mut fresh) = Desk::open(alloc, settings, EVERY) else {
        return Err(Fault::NoMemory);
    };
    match answer_all_again(&mut fresh, desk) {
        Ok(()) => compare_rows(&fresh, desk),
        Err(fault) => Err(fault),
    }
}
