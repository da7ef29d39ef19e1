ghost use Rattle.std.specs.Prelude.{◌≡◌, ◌≤◌, [], length, IfOk};
ghost use Rattle.std.specs.Cmp.{partial_equiv_from_equiv};
ghost use Rattle.std.specs.Cmp.Lexicographic.{pointwise, options_equiv};
ghost use Rattle.std.specs.Cmp.Rules.{comparing};
ghost use Rattle.std.specs.Option.{option_eq};
ghost use Rattle.std.proofs.Common.{rules};
ghost use Rattle.std.proofs.lemmas.Cmp.{lists_equiv};
ghost use Rattle.std.specs.List.{All};
ghost use Rattle.std.specs.List.Sorted.{IsPermutation};
ghost use Rattle.pf_place.specs.Lent.{lent_row};
ghost use Rattle.pf_place.specs.Same.{same_pick};
ghost use Rattle.pf_place.specs.Occupancy.{sitter, sitters, NoTaskTwice, row_of, idle_row};

use crate::place::Place;
use crate::row_view::RowView;
use crate::seating::seat;
use pf_order::pick::Pick;
use std::alloc::{AllocError, Global};
use std::marker::Model;

/// Who runs where in one slot: a place for each processor, numbered from 0, that holds a pick or is idle.
#[derive(Debug, Drop)]
pub struct Row {
    places: Vec<Place>,
}

impl Model for Row {
    ghost use Rattle.std.specs.Prelude.{List, Option};
    ghost use Rattle.pf_order.specs.declared.pick.Pick.{Pick};

    ghost Value = { List (Option Pick) };

    ghost view = { λ row. row.places.items };
}

// Rows are equal where each processor runs the same subtask, or is idle, in both.
impl PartialEq for Row {
    ghost eq = { pointwise (option_eq same_pick) };

    ghost laws = { partial_equiv_from_equiv (lists_equiv (options_equiv (Prim.search (comparing, rules)))) };

    fn eq(&self, other: &Row) -> bool {
        self.places == other.places
    }
}

impl Eq for Row {
    ghost laws = { lists_equiv (options_equiv (Prim.search (comparing, rules))) };
}

impl Row {
    /// The row as `Rows` lends one.
    pub fn view(&self) -> RowView<'_>
        ensures { lent_row result ≡ self.now }
    {
        RowView::of(&self.places)
    }

    /// How many processors m the row has, busy or idle.
    pub fn processors(&self) -> usize
        ensures { result ≡ length self.now }
    {
        self.view().processors()
    }

    /// The pick that runs on the processor; none where it is idle or the row has no such processor.
    pub fn get(&self, processor: u32) -> Option<Pick>
        ensures { result ≡ sitter self.now processor }
    {
        self.view().get(processor)
    }

    /// Takes over another row, which must have as many places; it takes no memory.
    pub fn assign(&mut self, other: RowView<'_>)
        requires { length self.old ≡ length (lent_row other) }
        ensures { self.new ≡ lent_row other.entry }
    {
        other.copy_to(&mut self.places);
    }

    /// An equal row.
    ///
    /// # Errors
    ///
    /// Where memory is refused.
    pub fn copy(&self) -> Result<Self, AllocError>
        ensures { IfOk result (λ row. row ≡ self.now) }
    {
        let places = self.places.clone()?;
        Ok(Row { places })
    }
}

/// The row of m idle processors. It stands before slot 0.
///
/// # Errors
///
/// Where memory is refused.
pub fn idle(alloc: Global, m: u32) -> Result<Row, AllocError>
    ensures row { IfOk result (λ row. row ≡ idle_row m) }
    ensures empty { IfOk result (λ row. sitters row ≡ []) }
{
    let places = vec![in alloc; Place::idle(); m as usize]?;
    Ok(Row { places })
}

/// The row of a slot in which `picks` run on the processors below `count`, where `before` is the row of the
/// slot before. A task that ran there keeps its processor where that is in use; the other picks, in order, take
/// the lowest free ones in use.
///
/// `count` must be at most m, `before` a row of m processors, and the picks at most `count`; their tasks are
/// numbered from 1. Neither the picks nor `before` may have a task twice.
///
/// # Errors
///
/// Where memory is refused.
pub fn place(
    alloc: Global,
    m: u32,
    count: u32,
    before: &Row,
    picks: &[Pick],
) -> Result<Row, AllocError>
    requires in_use { count ≤ m }
    requires places { length before.now ≡ m }
    requires few { length picks.now ≤ count }
    requires picks { NoTaskTwice picks.now }
    requires numbered { All (λ pick. 1 ≤ pick.task) picks.now }
    requires before { NoTaskTwice (sitters before.now) }
    ensures row { IfOk result (λ row. row ≡ row_of m count before.now picks.now) }
    ensures long { IfOk result (λ row. length row ≡ m) }

    // Each pick sits on one place, and nobody else sits; so the next row can be placed from this one.
    ensures seated { IfOk result (λ row. IsPermutation picks.now (sitters row)) }
    ensures once { IfOk result (λ row. NoTaskTwice (sitters row)) }
{
    let mut places = vec![in alloc; Place::idle(); m as usize]?;
    seat(&mut places, count as usize, before.view(), picks);
    Ok(Row { places })
}
