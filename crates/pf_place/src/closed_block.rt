ghost use Rattle.std.specs.Prelude.{◌≡◌, true, IfOk};
ghost use Rattle.std.specs.List.{slice_get};
ghost use Rattle.pf_place.specs.Blocks.{KeepsRoom, HasRoomFor};
ghost use Rattle.pf_place.specs.Lent.{places_lent};

use crate::block::Block;
use crate::packed_rows::PackedRows;
use crate::row_view::RowView;
use std::alloc::AllocError;
use std::marker::Model;

/// How the rows of a closed block are kept.
#[derive(Debug, Drop)]
enum Form {
    /// In small, as rows of one width are in ordinary settings.
    Packed(PackedRows),
    /// As they were in the block.
    Plain(Block),
}

/// The rows of a block that gets no more of them.
#[derive(Debug, Drop)]
pub(crate) struct ClosedBlock {
    form: Form,
}

impl Model for ClosedBlock {
    ghost use Rattle.std.specs.Prelude.{List, Option};
    ghost use Rattle.pf_order.specs.declared.pick.Pick.{Pick};
    ghost use Rattle.pf_place.specs.Closed.{rows_kept};

    ghost Value = { List (List (Option Pick)) };

    ghost view = { λ block. rows_kept block.form };
}

impl ClosedBlock {
    /// The rows of this block.
    ///
    /// # Errors
    ///
    /// Where memory is refused.
    pub(crate) fn of(block: &Block) -> Result<Self, AllocError>
        ensures { IfOk result (λ closed. closed ≡ block.now.rows) }
    {
        let form = match block.pack()? {
            Some(rows) => Form::Packed(rows),
            None => Form::Plain(block.copy()?),
        };
        Ok(ClosedBlock { form })
    }

    /// The k-th row, where there is one.
    pub(crate) fn row(&self, k: usize) -> Option<RowView<'_>>
        ensures { places_lent result ≡ slice_get self.now k }
    {
        match &self.form {
            Form::Packed(rows) => rows.row(k),
            Form::Plain(block) => block.row(k),
        }
    }

    /// Puts the rows on a block in place of its own; it takes no memory.
    pub(crate) fn open_on(&self, block: &mut Block)
        requires { HasRoomFor block.old self.now }
        ensures rows { block.new.rows ≡ self.now }
        ensures room { KeepsRoom block.old block.new }
    {
        match &self.form {
            Form::Packed(rows) => block.unpack(rows),
            Form::Plain(rows) => block.assign(rows),
        }
    }

    /// Whether the other is known to have the same rows: both must be packed.
    pub(crate) fn equals(&self, other: &ClosedBlock) -> bool
        ensures { result ≡ true → other.now ≡ self.now }
    {
        match (&self.form, &other.form) {
            (Form::Packed(rows), Form::Packed(others)) => rows.equals(others),
            _ => false,
        }
    }
}
