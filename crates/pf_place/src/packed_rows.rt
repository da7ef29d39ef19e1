ghost use Rattle.std.specs.Prelude.{◌≡◌, ◌+◌, ◌*◌, ◌^◌, ◌<◌, length, vec_len, vec_capacity, ◌≤◌, ◌++◌, true, IfOk, IfSome};
ghost use Rattle.std.specs.List.{slice_get};
ghost use Rattle.pf_place.specs.Blocks.{AreCutAt, all_rows_of, ends_of, rows_between};
ghost use Rattle.pf_place.specs.Lent.{places_lent};
ghost use Rattle.pf_place.specs.Packed.{even_ends};

use crate::place::Place;
use crate::row_view::RowView;
use crate::small_place::SmallPlace;
use std::alloc::{AllocError, Global};
use std::marker::Model;

/// Rows of one width, in one piece of memory: their places in small, one after another.
#[derive(Debug, Drop)]
pub(crate) struct PackedRows {
    count: usize,
    width: usize,
    places: Vec<SmallPlace>,
}

impl Model for PackedRows {
    ghost use Rattle.std.specs.Prelude.{List, Option};
    ghost use Rattle.pf_order.specs.declared.pick.Pick.{Pick};
    ghost use Rattle.pf_place.specs.Blocks.{AreCutAt, rows_between};
    ghost use Rattle.pf_place.specs.Packed.{even_ends};

    ghost Value = { List (List (Option Pick)) };

    ghost view = { λ rows. rows_between 0 (even_ends 0 rows.width rows.count) rows.places.items };

    ghost invariant = { λ rows. AreCutAt (rows_between 0 (even_ends 0 rows.width rows.count) rows.places.items)
        (even_ends 0 rows.width rows.count) rows.places.items };
}

impl PackedRows {
    /// So many rows of these places, each of this width; none where a place has no small form.
    ///
    /// # Errors
    ///
    /// Where memory is refused.
    pub(crate) fn of(
        alloc: Global,
        count: usize,
        width: usize,
        places: &[Place],
    ) -> Result<Option<Self>, AllocError>
        requires { AreCutAt (rows_between 0 (even_ends 0 width count) places.now) (even_ends 0 width count) places.now }
        ensures { IfOk result (λ packed. IfSome packed (λ rows. rows ≡ rows_between 0 (even_ends 0 width count) places.now)) }
    {
        match small_places(alloc, places)? {
            Some(places) => Ok(Some(PackedRows {
                count,
                width,
                places,
            })),
            None => Ok(None),
        }
    }

    /// How many rows there are.
    pub(crate) fn len(&self) -> usize
        ensures { result ≡ length self.now }
    {
        self.count
    }

    /// Puts all places after these, in the form that picks are seated in; it takes no memory.
    pub(crate) fn put_places(&self, places: &mut Vec<Place>)
        requires { vec_len places.old + length (all_rows_of self.now) ≤ vec_capacity places.old }
        ensures items { places.new.items ≡ places.old.items ++ all_rows_of self.now }
        ensures room { vec_capacity places.old ≤ vec_capacity places.new }
    {
        unpack(&self.places, places);
    }

    /// Puts where each row ends after these; it takes no memory.
    pub(crate) fn put_ends(&self, ends: &mut Vec<usize>)
        requires { vec_len ends.old + length self.now ≤ vec_capacity ends.old }
        ensures items { ends.new.items ≡ ends.old.items ++ ends_of 0 self.now }
        ensures room { vec_capacity ends.old ≤ vec_capacity ends.new }
    {
        push_ends(ends, self.width, self.count);
    }

    /// The k-th row, where there is one.
    pub(crate) fn row(&self, k: usize) -> Option<RowView<'_>>
        ensures { places_lent result ≡ slice_get self.now k }
    {
        if k >= self.count {
            return None;
        }
        let start = k * self.width;
        Some(RowView::of_small(&self.places[start..start + self.width]))
    }

    /// Whether the others lie in memory as these do; then they are the same rows.
    pub(crate) fn equals(&self, other: &PackedRows) -> bool
        ensures { result ≡ true → other.now ≡ self.now }
    {
        self.count == other.count && self.width == other.width && self.places == other.places
    }
}

/// These places in small; none where one has no small form.
fn small_places(alloc: Global, places: &[Place]) -> Result<Option<Vec<SmallPlace>>, AllocError>
    ensures { IfOk result (λ small. IfSome small (λ small. small.items ≡ places.now)) }
{
    let mut small = Vec::with_capacity(alloc, places.len())?;
    for place in places {
        match SmallPlace::of(*place) {
            Some(place) => small.push_reserved(place),
            None => return Ok(None),
        }
    }
    Ok(Some(small))
}

/// Puts small places after these; it takes no memory.
fn unpack(small: &[SmallPlace], places: &mut Vec<Place>)
    requires { vec_len places.old + length small.now ≤ vec_capacity places.old }
    ensures items { places.new.items ≡ places.old.items ++ small.now }
    ensures room { vec_capacity places.old ≤ vec_capacity places.new }
{
    for place in small {
        places.push_reserved(place.place());
    }
}

/// Puts after these where so many rows of one width end, of which the first begins at 0; it takes no memory.
fn push_ends(ends: &mut Vec<usize>, width: usize, count: usize)
    requires small { count * width < 2 ^ 64 }
    requires room { vec_len ends.old + count ≤ vec_capacity ends.old }
    ensures items { ends.new.items ≡ ends.old.items ++ even_ends 0 width count }
    ensures room { vec_capacity ends.old ≤ vec_capacity ends.new }
{
    let mut end = 0;
    for _k in 0..count {
        end += width;
        ends.push_reserved(end);
    }
}
