ghost use Rattle.std.specs.Prelude.{◌≡◌};
ghost use Rattle.pf_vocabulary.specs.Options.Formats.{format_named, format_with_cell, format_with_style, format_with_wrap, format_within, has_replies, is_too_long, range_fault, range_of, tells_refusals};

use crate::fault::range_fault::RangeFault;
use crate::look::cell::Cell;
use crate::look::look::Look;
use crate::look::style::Style;
use crate::look::wrap::{MOST_SLOTS, Wrap};
use crate::options::slot_range::SlotRange;

/// What stands after the replies.
#[derive(Clone, Copy)]
pub enum Format {
    /// The schedule of these slots alone, without replies.
    Schedule(SlotRange),
    /// The replies, then the schedule, the lags, the misses and the denials as tables.
    Tables,
    /// The replies, then one JSON object.
    Json,
    /// The JSON object alone.
    Report,
    /// The replies alone.
    Replies,
    /// The lags alone, as a table.
    Lags,
    /// The misses alone, as a table.
    Misses,
    /// The denials alone, as a table.
    Denials,
    /// The events held, as a table.
    Events,
    /// A script of the desk as it stands.
    Script,
    /// How the processors were used, as a table.
    Processors,
    /// The figures of each task, as a table.
    Stats,
    /// The schedule of these slots as a chart in characters.
    Chart(SlotRange),
    /// The schedule of these slots as a picture in SVG, in this look.
    Svg(SlotRange, Look),
    /// The schedule of these slots as a table with a line for each quantum.
    Quanta(SlotRange),
    /// The windows of each task that lie in these slots, as a table.
    Windows(SlotRange),
    /// The jobs of each task, as a table.
    Jobs,
    /// Load and room of these slots, where they change, as a table.
    Load(SlotRange),
    /// The run as trace events.
    Trace,
    /// The schedule as a C array.
    C,
    /// The JSON object of the report, with settings, events, figures and refused records.
    Full,
    /// That object in a page of HTML to look around in.
    Html,
}

/// The most slots that a page shows.
pub const MOST_PAGE_SLOTS: u64 = 65_536;

impl Format {
    /// The format of this name: `schedule`, `tables`, `json`, `report`, `replies`, `lags`, `misses`, `denials`, `events`,
    /// `script`, `processors`, `stats`, `chart`, `svg`, `windows`, `jobs`, `load`, `quanta`, `trace`, `c`, `full` or `html`, of all
    /// slots and in the usual look. `None` where the text is none of these.
    pub fn named(name: &str) -> Option<Format>
        ensures { result ≡ format_named name.now }
    {
        match name {
            "schedule" => Some(Format::Schedule(SlotRange::whole())),
            "tables" => Some(Format::Tables),
            "json" => Some(Format::Json),
            "report" => Some(Format::Report),
            "replies" => Some(Format::Replies),
            "lags" => Some(Format::Lags),
            "misses" => Some(Format::Misses),
            "denials" => Some(Format::Denials),
            "events" => Some(Format::Events),
            "script" => Some(Format::Script),
            "processors" => Some(Format::Processors),
            "stats" => Some(Format::Stats),
            "chart" => Some(Format::Chart(SlotRange::whole())),
            "svg" => Some(Format::Svg(SlotRange::whole(), Look::usual())),
            "windows" => Some(Format::Windows(SlotRange::whole())),
            "jobs" => Some(Format::Jobs),
            "load" => Some(Format::Load(SlotRange::whole())),
            "quanta" => Some(Format::Quanta(SlotRange::whole())),
            "trace" => Some(Format::Trace),
            "c" => Some(Format::C),
            "full" => Some(Format::Full),
            "html" => Some(Format::Html),
            _ => None,
        }
    }

    /// The same format of the slots of a range alone, where it is one of `schedule`, `chart`, `svg`, `windows`, `load` and
    /// `quanta`. Any other has no range: it is as before where both ends are left out, and else `None`.
    pub fn within(self, range: SlotRange) -> Option<Format>
        ensures { result ≡ format_within self range }
    {
        match self {
            Format::Schedule(_) => Some(Format::Schedule(range)),
            Format::Chart(_) => Some(Format::Chart(range)),
            Format::Svg(_, look) => Some(Format::Svg(range, look)),
            Format::Quanta(_) => Some(Format::Quanta(range)),
            Format::Windows(_) => Some(Format::Windows(range)),
            Format::Load(_) => Some(Format::Load(range)),
            other => {
                if !range.is_whole() {
                    return None;
                }
                Some(other)
            }
        }
    }

    /// The same format in slots of this width, where it is `svg`; else `None`.
    pub fn with_cell(self, cell: Cell) -> Option<Format>
        ensures { result ≡ format_with_cell self cell }
    {
        match self {
            Format::Svg(range, Look { wrap, style, .. }) => {
                Some(Format::Svg(range, Look { cell, wrap, style }))
            }
            _ => None,
        }
    }

    /// The same format in blocks of so many slots, where it is `svg`; else `None`.
    pub fn with_wrap(self, wrap: Wrap) -> Option<Format>
        ensures { result ≡ format_with_wrap self wrap }
    {
        match self {
            Format::Svg(range, Look { cell, style, .. }) => {
                Some(Format::Svg(range, Look { cell, wrap, style }))
            }
            _ => None,
        }
    }

    /// The same format in this style, where it is `svg`; else `None`.
    pub fn with_style(self, style: Style) -> Option<Format>
        ensures { result ≡ format_with_style self style }
    {
        match self {
            Format::Svg(range, Look { cell, wrap, .. }) => {
                Some(Format::Svg(range, Look { cell, wrap, style }))
            }
            _ => None,
        }
    }

    /// Its slots: all of them where it has no range.
    pub fn range(&self) -> SlotRange
        ensures { result ≡ range_of self.now }
    {
        match *self {
            Format::Schedule(range)
            | Format::Chart(range)
            | Format::Svg(range, _)
            | Format::Quanta(range)
            | Format::Windows(range)
            | Format::Load(range) => range,
            _ => SlotRange::whole(),
        }
    }

    /// Why it can't be shown where so many slots were stepped: its range is not within them, or else it is a picture of
    /// more than 4,096 slots, or a page of more than 65,536. `None` where it can be shown.
    pub fn range_fault(&self, now: u64) -> Option<RangeFault>
        ensures { result ≡ range_fault self.now now }
    {
        if !self.range().is_within(now) {
            return Some(RangeFault::NotWithin(now));
        }
        if self.is_too_long(now) {
            return Some(RangeFault::TooLong);
        }
        None
    }

    /// Whether it is a picture or a page of more slots than one may show.
    fn is_too_long(&self, now: u64) -> bool
        ensures { result ≡ is_too_long self.now now }
    {
        match *self {
            Format::Svg(range, _) => range.slots(now) > MOST_SLOTS,
            Format::Html => now > MOST_PAGE_SLOTS,
            _ => false,
        }
    }

    /// Whether each command's reply is written.
    pub fn has_replies(self) -> bool
        ensures { result ≡ has_replies self }
    {
        matches!(self, Format::Tables | Format::Json | Format::Replies)
    }

    /// Whether the records of which a command was refused are told after the replies.
    pub fn tells_refusals(self) -> bool
        ensures { result ≡ tells_refusals self }
    {
        matches!(self, Format::Full | Format::Html)
    }
}
