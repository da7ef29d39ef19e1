ghost use Rattle.std.specs.Prelude.{◌≡◌, ◌≤◌, ◌++◌, length, map, OnOk};
ghost use Rattle.pf_place.specs.Lent.{lent_row};
ghost use Rattle.pf_answers.specs.Steps.{comma_before, items_from, place_json, row_json};

use pf_notes::words::push_two;
use pf_order::pick::Pick;
use pf_place::row_view::RowView;
use std::alloc::AllocError;

/// Appends a comma, but where the item is the first one.
pub(crate) fn push_comma(text: &mut Vec<u8>, place: u64) -> Result<(), AllocError>
    ensures { OnOk result (text.new.items ≡ text.old.items ++ comma_before place) }
{
    if place == 0 {
        return Ok(());
    }
    text.extend_from_slice(b",")
}

/// Appends who sits in a place, or null.
fn push_place(text: &mut Vec<u8>, place: Option<Pick>) -> Result<(), AllocError>
    ensures { OnOk result (text.new.items ≡ text.old.items ++ place_json place) }
{
    match place {
        None => text.extend_from_slice(b"null"),
        Some(pick) => {
            push_two(text, b"[", u64::from(pick.task), b",", u64::from(pick.sub))?;
            text.extend_from_slice(b"]")
        }
    }
}

/// Appends the k-th item of a list, who sits in a place.
fn push_item(text: &mut Vec<u8>, k: u64, place: Option<Pick>) -> Result<(), AllocError>
    ensures { OnOk result (text.new.items ≡ text.old.items ++ (comma_before k ++ place_json place)) }
{
    push_comma(text, k)?;
    push_place(text, place)
}

/// Appends a row as a list.
pub(crate) fn push_row(text: &mut Vec<u8>, row: RowView<'_>) -> Result<(), AllocError>
    requires { length (lent_row row) ≤ 64 }
    ensures { OnOk result (text.new.items ≡ text.old.items ++ row_json (lent_row row.entry)) }
{
    text.extend_from_slice(b"[")?;
    push_places(text, row)?;
    text.extend_from_slice(b"]")
}

/// Appends the places of a row.
fn push_places(text: &mut Vec<u8>, row: RowView<'_>) -> Result<(), AllocError>
    requires { length (lent_row row) ≤ 64 }
    ensures { OnOk result (text.new.items ≡ text.old.items ++ items_from 0 (map place_json (lent_row row.entry))) }
{
    let processors = row.processors() as u32;
    for processor in 0..processors {
        push_item(text, u64::from(processor), row.get(processor))?;
    }
    Ok(())
}
