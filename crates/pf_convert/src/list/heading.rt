ghost use Rattle.std.specs.Prelude.{◌≡◌, ◌++◌, [], OnOk, slice_index_or};
ghost use Rattle.csv.specs.Records.{fields_of};
ghost use Rattle.pf_convert.specs.List.Heading.{field_number, joined_names};

use crate::list::column::Column;
use crate::list::fault::HeadingFault;
use csv::ByteRecord;
use std::alloc::AllocError;

/// The heading of a list: at which place, counted from 0, each column is.
#[derive(Clone, Copy)]
pub struct Heading {
    /// How many columns there are.
    pub count: usize,
    pub name: Option<usize>,
    pub work: Option<usize>,
    pub every: Option<usize>,
    pub deadline: Option<usize>,
    pub first: Option<usize>,
    pub early: Option<usize>,
}

impl Heading {
    ghost use Rattle.std.specs.Prelude.{◌≡◌, ◌<◌, ◌-◌, ◌^◌};
    ghost use Rattle.csv.specs.Records.{fields_of};
    ghost use Rattle.pf_convert.specs.List.Heading.{field_given, field_in, heading_in, needed_in, no_columns, number_of, place_of, with_column};

    /// No columns.
    pub fn new() -> Heading
        ensures { result ≡ no_columns }
    {
        Heading {
            count: 0,
            name: None,
            work: None,
            every: None,
            deadline: None,
            first: None,
            early: None,
        }
    }

    /// The heading that a row is.
    ///
    /// # Errors
    ///
    /// The first thing that is wrong with it: its fields from the left, and then what is missing.
    pub fn read(row: &ByteRecord) -> Result<Heading, HeadingFault>
        ensures { result ≡ heading_in (fields_of row.now) }
    {
        let mut heading = Heading::new();
        for place in 0..row.len() {
            heading = heading.with_field(field_of(row, place), place)?;
        }
        heading.complete(field_number(row.len()))
    }

    /// The heading with a further field, at this place.
    ///
    /// # Errors
    ///
    /// Where the field names no column, or one that it has.
    fn with_field(self, field: &[u8], place: usize) -> Result<Heading, HeadingFault>
        requires { place < 2 ^ 64 - 1 }
        ensures { result ≡ field_given place self field.now }
    {
        let Some(column) = Column::named(field) else {
            return Err(HeadingFault::NoColumn(place + 1));
        };
        if self.place(column).is_some() {
            return Err(HeadingFault::Twice(place + 1, column));
        }
        Ok(self.with(column, place))
    }

    /// The heading with a column at a place.
    fn with(self, column: Column, place: usize) -> Heading
        requires { place < 2 ^ 64 - 1 }
        ensures { result ≡ with_column column place self }
    {
        let count = place + 1;
        let place = Some(place);
        match column {
            Column::Name => Heading {
                count,
                name: place,
                ..self
            },
            Column::Work => Heading {
                count,
                work: place,
                ..self
            },
            Column::Every => Heading {
                count,
                every: place,
                ..self
            },
            Column::Deadline => Heading {
                count,
                deadline: place,
                ..self
            },
            Column::First => Heading {
                count,
                first: place,
                ..self
            },
            Column::Early => Heading {
                count,
                early: place,
                ..self
            },
        }
    }

    /// The heading, where no column is missing. A further field would have this number.
    ///
    /// # Errors
    ///
    /// The first column that is.
    fn complete(self, next: usize) -> Result<Heading, HeadingFault>
        ensures { result ≡ needed_in next self }
    {
        if self.name.is_none() {
            return Err(HeadingFault::Missing(next, Column::Name));
        }
        if self.work.is_none() {
            return Err(HeadingFault::Missing(next, Column::Work));
        }
        if self.every.is_none() {
            return Err(HeadingFault::Missing(next, Column::Every));
        }
        Ok(self)
    }

    /// The place of a column, if it is there.
    pub fn place(self, column: Column) -> Option<usize>
        ensures { result ≡ place_of column self }
    {
        match column {
            Column::Name => self.name,
            Column::Work => self.work,
            Column::Every => self.every,
            Column::Deadline => self.deadline,
            Column::First => self.first,
            Column::Early => self.early,
        }
    }

    /// The number of a column's field, counted from 1; that after the last where the heading lacks it.
    pub fn number(&self, column: Column) -> usize
        ensures { result ≡ number_of column self.now }
    {
        field_number(self.place(column).unwrap_or(self.count))
    }

    /// The field of a column in a row, without a byte where the heading lacks it.
    pub fn field<'a>(&self, column: Column, row: &'a ByteRecord) -> &'a [u8]
        ensures { result.now ≡ field_in column self.now (fields_of row.now) }
    {
        match self.place(column) {
            Some(place) => field_of(row, place),
            None => &[],
        }
    }
}

/// The number of the field at a place: fields are counted from 1.
pub fn field_number(place: usize) -> usize
    ensures { result ≡ field_number place }
{
    place.saturating_add(1)
}

/// The field at a place of a row, without a byte where there is none.
pub fn field_of(row: &ByteRecord, place: usize) -> &[u8]
    ensures { result.now ≡ slice_index_or (fields_of row.now) place [] }
{
    match row.get(place) {
        Some(field) => field,
        None => &[],
    }
}

/// Adds the fields of a heading, joined by commas.
///
/// # Errors
///
/// Where memory is refused: a front of them was added.
pub fn push_names(text: &mut Vec<u8>, names: &ByteRecord) -> Result<(), AllocError>
    ensures { OnOk result (text.new.items ≡ text.old.items ++ joined_names (fields_of names.now)) }
{
    text.extend_from_slice(field_of(names, 0))?;
    for place in 1..names.len() {
        text.extend_from_slice(b",")?;
        text.extend_from_slice(field_of(names, place))?;
    }
    Ok(())
}
