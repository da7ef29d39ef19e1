ghost use Rattle.std.specs.Prelude.{◌≡◌, ◌<◌, ◌≤◌, ◌^◌};
ghost use Rattle.pf_picture.specs.Scale.{processor_top, step_with, time_in, width_with};

use pf_vocabulary::look::style::Style;
use pf_vocabulary::names::slot_length::SlotLength;
use std::marker::Model;

/// What a block of a picture is measured by: its slots, how wide each is and what stands to their left, the picture's width,
/// every how many slots one is numbered, how many processors there are, how many quanta the greatest lag has, how the tasks
/// are drawn, and how long a slot is, where that is told. Lengths and places are in pixels, as `u128`: stairs are as high as their windows are many.
#[derive(Clone, Copy)]
pub struct Scale {
    from: u64,
    to: u64,
    cell: u64,
    gutter: u128,
    width: u128,
    step: u64,
    processors: u64,
    strips: u64,
    style: Style,
    slot: Option<SlotLength>,
}

impl Model for Scale {
    ghost use Rattle.pf_picture.specs.Scale.{IsMeasures, Measures};

    ghost Value = { Measures };

    ghost view = { λ s. record {
      from = s.from;
      to = s.to;
      cell = s.cell;
      gutter = s.gutter;
      width = s.width;
      step = s.step;
      processors = s.processors;
      strips = s.strips;
      style = s.style;
      slot = s.slot;
    } };

    ghost invariant = { λ s. IsMeasures (record {
      from = s.from;
      to = s.to;
      cell = s.cell;
      gutter = s.gutter;
      width = s.width;
      step = s.step;
      processors = s.processors;
      strips = s.strips;
      style = s.style;
      slot = s.slot;
    }) };

    ghost inverse = { λ s. record {
      from = s.from;
      to = s.to;
      cell = s.cell;
      gutter = s.gutter;
      width = s.width;
      step = s.step;
      processors = s.processors;
      strips = s.strips;
      style = s.style;
      slot = s.slot;
    } };
}

impl Scale {
    ghost use Rattle.std.specs.Prelude.{◌≡◌, ◌+◌, ◌*◌, ◌≤◌, ◌^◌};
    ghost use Rattle.pf_picture.specs.Scale.{IsMeasures, block_of, blocks_of, columns_of, first_top, inset_of, page_height, processor_top, x_of};

    /// The scale of the slots from `from` to `to`.
    pub(crate) fn new(
        from: u64,
        to: u64,
        cell: u64,
        gutter: u128,
        width: u128,
        step: u64,
        processors: u64,
        strips: u64,
        style: Style,
        slot: Option<SlotLength>,
    ) -> Self
        requires { IsMeasures (record { from = from; to = to; cell = cell; gutter = gutter; width = width; step = step; processors = processors; strips = strips; style = style; slot = slot }) }
        ensures { result ≡ record { from = from; to = to; cell = cell; gutter = gutter; width = width; step = step; processors = processors; strips = strips; style = style; slot = slot } }
    {
        Scale {
            from,
            to,
            cell,
            gutter,
            width,
            step,
            processors,
            strips,
            style,
            slot,
        }
    }

    /// The block of this place, of so many slots at most.
    pub(crate) fn block(self, wrap: u64, place: u64) -> Self
        requires wrap { wrap ≤ 4096 }
        requires within { self.from + wrap * place ≤ self.to }
        ensures { result ≡ block_of self wrap place }
    {
        let from = self.from + wrap * place;
        Scale {
            from,
            to: (from + wrap).min(self.to),
            ..self
        }
    }

    /// How many blocks of so many slots at most there are.
    pub(crate) fn blocks(self, wrap: u64) -> u64
        requires { 1 ≤ wrap }
        ensures value { result ≡ blocks_of self wrap }
        ensures few { result ≤ 4096 }
    {
        (self.to - self.from).div_ceil(wrap).max(1)
    }

    /// The first slot.
    pub(crate) fn from(self) -> u64
        ensures value { result ≡ self.from }
        ensures measures { IsMeasures self }
    {
        self.from
    }

    /// The slot at which the block ends.
    pub(crate) fn to(self) -> u64
        ensures value { result ≡ self.to }
        ensures measures { IsMeasures self }
    {
        self.to
    }

    /// The width of a slot, 6 to 40.
    pub(crate) fn cell(self) -> u64
        ensures value { result ≡ self.cell }
        ensures measures { IsMeasures self }
    {
        self.cell
    }

    /// The picture's width, at least 400.
    pub(crate) fn width(self) -> u128
        ensures value { result ≡ self.width }
        ensures measures { IsMeasures self }
    {
        self.width
    }

    /// Every so many slots one is numbered, at least 1.
    pub(crate) fn step(self) -> u64
        ensures value { result ≡ self.step }
        ensures measures { IsMeasures self }
    {
        self.step
    }

    /// How many processors there are.
    pub(crate) fn processors(self) -> u64
        ensures value { result ≡ self.processors }
        ensures measures { IsMeasures self }
    {
        self.processors
    }

    /// How many quanta the greatest lag has, at least 1.
    pub(crate) fn strips(self) -> u64
        ensures value { result ≡ self.strips }
        ensures measures { IsMeasures self }
    {
        self.strips
    }

    /// How the tasks are drawn.
    pub(crate) fn style(self) -> Style
        ensures value { result ≡ self.style }
        ensures measures { IsMeasures self }
    {
        self.style
    }

    /// How long a slot is, where that is told.
    pub(crate) fn slot(self) -> Option<SlotLength>
        ensures { result ≡ self.slot }
    {
        self.slot
    }

    /// The left edge of slot t.
    pub(crate) fn x(self, t: u64) -> u128
        requires { self.from ≤ t }
        ensures value { result ≡ x_of self t }
        ensures first { 96 ≤ result }
        ensures short { result ≤ 2 ^ 101 }
    {
        self.gutter + u128::from(self.cell) * u128::from(t - self.from)
    }

    /// How far the box of a quantum stands inside its slot, 1 to 8.
    pub(crate) fn inset(self) -> u64
        ensures value { result ≡ inset_of self }
        ensures some { 1 ≤ result }
        ensures within { result ≤ 8 }
    {
        self.cell / 5
    }

    /// The top of the part of the first task.
    pub(crate) fn first_top(self) -> u128
        ensures value { result ≡ first_top self }
        ensures below { 56 ≤ result }
        ensures short { result ≤ 2 ^ 12 }
    {
        u128::from(56 + 20 * self.processors)
    }

    /// How many items of the legend stand side by side, at least 2.
    pub(crate) fn columns(self) -> u128
        ensures value { result ≡ columns_of self }
        ensures some { 2 ≤ result }
    {
        (self.width - 16) / 172
    }

    /// The picture's height where its blocks end at `end`.
    pub(crate) fn page_height(self, end: u128) -> u128
        requires { end ≤ 2 ^ 100 }
        ensures { result ≡ page_height self end }
    {
        end + 44 + 16 * 12u128.div_ceil(self.columns())
    }
}

/// The top of the row of processor p.
pub(crate) fn processor_top(p: u64) -> u64
    requires { p < 64 }
    ensures { result ≡ processor_top p }
{
    44 + 20 * p
}

/// The time of slot t, in the unit of the slot's length, or its number where none is told.
pub(crate) fn time_in(slot: Option<SlotLength>, t: u64) -> u128
    ensures { result ≡ time_in slot t }
{
    match slot {
        Some(slot) => u128::from(t) * u128::from(slot.length),
        None => u128::from(t),
    }
}

/// The width of a picture with so many slots side by side, each `cell` wide, after so much at their left.
pub(crate) fn width_with(gutter: u128, cell: u64, slots: u64) -> u128
    requires gutter { gutter ≤ 2 ^ 80 }
    requires cell { cell ≤ 40 }
    requires slots { slots ≤ 4096 }
    ensures { result ≡ width_with gutter cell slots }
{
    (gutter + 16 + u128::from(cell * slots)).max(400)
}

/// Every how many slots of this width one is numbered, where a number has so many digits at most.
pub(crate) fn step_with(cell: u64, digits: u64) -> u64
    requires cell { cell ≤ 40 }
    ensures value { result ≡ step_with cell digits }
    ensures some { 1 ≤ result }
{
    let room = (6 * u128::from(digits) + 6).max(40);
    if u128::from(5 * cell) >= room {
        5
    } else if u128::from(10 * cell) >= room {
        10
    } else if u128::from(20 * cell) >= room {
        20
    } else if u128::from(50 * cell) >= room {
        50
    } else {
        100
    }
}
