ghost use Rattle.std.specs.Prelude.{◌≡◌, IfOk};
ghost use Rattle.pf_chart.specs.Labels.{places_for};

use crate::symbols::rank_symbol;
use pf_courses::listed::Listed;
use pf_vocabulary::names::names::Names;
use pf_vocabulary::names::titles::label_of;
use std::alloc::{AllocError, Global};
use std::marker::Model;

/// The least places in which labels stand.
const LEAST: usize = 12;

/// How many places leave room for 60 slots on a line.
const NARROW: usize = 20;

/// The labels of a chart: what tasks are called, and in how many places labels stand.
#[derive(Drop)]
pub struct Labels<'a> {
    names: &'a Names,
    places: usize,
}

impl<'a> Model for Labels<'a> {
    ghost use Rattle.pf_chart.specs.Labels.{Labels};

    ghost Value = { Labels };

    ghost view = { λ l. record { names = l.names.now; places = l.places } };
}

/// As many places as the label of a task has, and one.
fn places_for(alloc: Global, names: &Names, task: u32) -> Result<usize, AllocError>
    ensures { IfOk result (λ places. places ≡ places_for names.now task) }
{
    let label = label_of(alloc, names, u64::from(task))?;
    Ok(label.len() + 3)
}

impl<'a> Labels<'a> {
    ghost use Rattle.std.specs.Prelude.{◌≡◌, IfOk};
    ghost use Rattle.pf_chart.specs.Labels.{block_length, labels_of, task_label};

    /// The labels of these listed tasks: all stand in 12 places, or in one more than the longest has.
    ///
    /// # Errors
    ///
    /// Where memory is refused.
    pub(crate) fn of(alloc: Global, names: &'a Names, listed: &[Listed]) -> Result<Self, AllocError>
        ensures { IfOk result (λ labels. labels ≡ labels_of names.now listed.now) }
    {
        let mut places = LEAST;
        for listing in listed {
            places = places.max(places_for(alloc, names, listing.task())?);
        }
        Ok(Labels { names, places })
    }

    /// In how many places labels stand.
    pub(crate) fn places(&self) -> usize
        ensures { result ≡ self.now.places }
    {
        self.places
    }

    /// How many slots a block has, where so many are left: no line has more than 80 places.
    pub(crate) fn block_length(&self) -> u64
        ensures { result ≡ block_length self.now.places }
    {
        if self.places <= NARROW { 60 } else { 50 }
    }

    /// The label of a listed task of this rank.
    ///
    /// # Errors
    ///
    /// Where memory is refused.
    pub(crate) fn of_task(
        &self,
        alloc: Global,
        rank: usize,
        task: u32,
    ) -> Result<Vec<u8>, AllocError>
        ensures { IfOk result (λ label. label.items ≡ task_label self.now.names rank task) }
    {
        let name = label_of(alloc, self.names, u64::from(task))?;
        let mut label = Vec::new(alloc);
        label.push(rank_symbol(rank))?;
        label.push(b' ')?;
        label.extend_from_slice(name.as_bytes())?;
        Ok(label)
    }
}
