ghost use Rattle.std.specs.Prelude.{◌≡◌, ◌++◌, ◌∷◌, [], true, OnOk};
ghost use Rattle.csv.specs.Records.{fields_of, partial_of};
ghost use Rattle.csv.specs.Writing.{row_text};
ghost use Rattle.pf_text.specs.Page.{IsBetweenRecords, table_writer, text_given};

use crate::fields::Fields;
use crate::pair_text::PairText;
use crate::pieces::LONG_PIECE;
use csv::{ByteRecord, Writer, WriterBuilder};
use itoa::Buffer;
use std::alloc::{AllocError, Global};
use std::fmt::Display;
use std::marker::Model;

/// A table on its way to text: its whole records as csv writes them, and the fields of the next record so far. The next
/// record may lose fields where a call fails, so a table is given up then; one whose write failed takes no more records.
pub struct Table {
    writer: Writer<Vec<u8>>,
    /// Whether a write failed.
    broken: bool,
    fields: ByteRecord,
    /// The memory in which a field is shown before it is added.
    shown: String,
}

// A call of its own, so that who drops a table sees none of its parts.
impl Drop for Table {
    fn drop(self) {
        let Table {
            writer: _,
            broken: _,
            fields: _,
            shown: _,
        } = self;
    }
}

impl Model for Table {
    ghost use Rattle.std.specs.Prelude.{◌≡◌, false, []};
    ghost use Rattle.csv.specs.Records.{fields_of, partial_of};
    ghost use Rattle.pf_text.specs.Page.{Page, text_given, IsBetweenRecords};

    ghost Value = { Page };

    ghost view = { λ t. record { text = text_given t.writer; fields = fields_of t.fields } };

    ghost invariant = { λ t. (t.broken ≡ false → IsBetweenRecords t.writer) × (partial_of t.fields ≡ []) };
}

impl Table {
    ghost use Rattle.std.specs.Prelude.{◌≡◌, ◌≤◌, ◌++◌, [], true, codes, length, map, IfOk, OnOk, IfSome};
    ghost use Rattle.std.specs.Fmt.{decimal};
    ghost use Rattle.pf_text.specs.Page.{empty_page, with_field, with_record};

    /// A table of no records. They may have different numbers of fields.
    pub fn new(alloc: Global) -> Self
        ensures { result ≡ empty_page }
    {
        Table {
            writer: WriterBuilder::new()
                .flexible(true)
                .from_writer(Vec::new(alloc)),
            broken: false,
            fields: ByteRecord::new(alloc),
            shown: String::new(alloc),
        }
    }

    /// Adds a field to the next record.
    pub fn show<D: Display + Drop>(&mut self, value: D) -> Result<(), AllocError>
        ensures { OnOk result (IfSome (D.output value) (λ field. self.new ≡ with_field self.old field)) }
    {
        self.shown.clear();
        self.shown.write(value)?;
        push_field(&mut self.fields, self.shown.as_bytes())
    }

    /// Adds a number to the next record: the text of `show`, but in a fraction of its time.
    pub fn show_number(&mut self, number: u64) -> Result<(), AllocError>
        ensures { OnOk result (self.new ≡ with_field self.old (decimal number)) }
    {
        let mut digits = Buffer::new();
        push_field(&mut self.fields, digits.format(number).as_bytes())
    }

    /// Adds a field of two numbers with a slash between them.
    pub fn show_pair(&mut self, first: u64, second: u64) -> Result<(), AllocError>
        ensures { OnOk result (self.new ≡ with_field self.old (decimal first ++ codes "/" ++ decimal second)) }
    {
        let mut pair = PairText::empty();
        pair.set(first, second);
        push_field(&mut self.fields, pair.as_bytes())
    }

    /// Adds a field without text to the next record.
    pub fn show_nothing(&mut self) -> Result<(), AllocError>
        ensures { OnOk result (self.new ≡ with_field self.old []) }
    {
        push_field(&mut self.fields, &[])
    }

    /// Ends the record.
    #[tactic(auto, using(crate::proofs::Flexible::row_same))]
    pub fn end_record(&mut self) -> Result<(), AllocError>
        ensures { OnOk result (self.new ≡ with_record self.old self.old.fields) }
    {
        if self.broken {
            return Err(AllocError);
        }
        let written = self.writer.write_byte_record(&self.fields);
        self.fields.clear();
        match written {
            Ok(()) => Ok(()),
            Err(_) => {
                self.broken = true;
                Err(AllocError)
            }
        }
    }

    /// Adds a record of these fields: the text of `show` for each and `end_record`, but no field is kept on the way.
    #[tactic(auto, using(crate::proofs::Flexible::row_same))]
    pub fn push_fields<F: Fields>(&mut self, fields: &F) -> Result<(), AllocError>
        requires { self.old.fields ≡ [] }
        ensures { OnOk result (self.new ≡ with_record self.old (F.texts fields.now)) }
    {
        if self.broken {
            return Err(AllocError);
        }
        if write_fields(&mut self.writer, fields) {
            return Ok(());
        }
        self.broken = true;
        Err(AllocError)
    }

    /// Adds a record of these texts: a heading.
    pub fn push_texts(&mut self, texts: &[&str]) -> Result<(), AllocError>
        requires { self.old.fields ≡ [] }
        ensures { OnOk result (self.new ≡ with_record self.old (map (λ text. text.now) texts.now)) }
    {
        for text in texts {
            self.show(*text)?;
        }
        self.end_record()
    }

    /// Whether the text so far makes a long piece, but for some of its last bytes.
    pub fn is_long(&self) -> bool
        ensures { result ≡ true → 1 ≤ length self.now.text }
    {
        self.writer.get_ref().len() >= LONG_PIECE
    }

    /// The text of the table.
    pub fn finish(self) -> Result<Vec<u8>, AllocError>
        ensures { IfOk result (λ text. text.items ≡ self.text) }
    {
        let Table {
            writer,
            broken: _,
            fields: _,
            shown: _,
        } = self;
        match writer.into_inner() {
            Ok(text) => Ok(text),
            Err(_) => Err(AllocError),
        }
    }
}

/// Writes a record of these fields, and says whether no write failed.
fn write_fields<F: Fields>(writer: &mut Writer<Vec<u8>>, fields: &F) -> bool
    requires { IsBetweenRecords writer.old }
    ensures text { result ≡ true → text_given writer.new ≡ text_given writer.old ++ row_text table_writer (F.texts fields.now) }
    ensures between { result ≡ true → IsBetweenRecords writer.new }
{
    let mut text = PairText::empty();
    for at in 0..fields.count() {
        fields.write(at, &mut text);
        if let Err(_) = writer.write_field(text.as_bytes()) {
            return false;
        }
    }
    match writer.end_record() {
        Ok(()) => true,
        Err(_) => false,
    }
}

/// Adds a field to a record, which is given up where memory is refused.
fn push_field(fields: &mut ByteRecord, field: &[u8]) -> Result<(), AllocError>
    requires { partial_of fields.old ≡ [] }
    ensures fields { OnOk result (fields_of fields.new ≡ fields_of fields.old ++ field.now ∷ []) }
    ensures whole { partial_of fields.new ≡ [] }
{
    let pushed = fields.push_field(field);
    if pushed.is_err() {
        fields.clear();
    }
    pushed
}
