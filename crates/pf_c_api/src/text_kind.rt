ghost use Rattle.std.specs.Prelude.{◌≡◌};
ghost use Rattle.pf_c_api.specs.Texts.{format_numbered, part_numbered, slots_between};

use pf_vocabulary::options::format::Format;
use pf_vocabulary::options::slot_range::SlotRange;

// The numbers of the texts that a desk has of itself: each is a format of the program's.

/// The number of `Format::Schedule`.
pub const SCHEDULE: u64 = 0;

/// The number of `Format::Lags`.
pub const LAGS: u64 = 1;

/// The number of `Format::Misses`.
pub const MISSES: u64 = 2;

/// The number of `Format::Denials`.
pub const DENIALS: u64 = 3;

/// The number of `Format::Events`.
pub const EVENTS: u64 = 4;

/// The number of `Format::Script`.
pub const SCRIPT: u64 = 5;

/// The number of `Format::Report`.
pub const JSON: u64 = 6;

/// The number of `Format::Processors`.
pub const PROCESSORS: u64 = 7;

/// The number of `Format::Stats`.
pub const STATS: u64 = 8;

/// The number of `Format::Chart`.
pub const CHART: u64 = 9;

/// The number of `Format::Windows`.
pub const WINDOWS: u64 = 10;

/// The number of `Format::Jobs`.
pub const JOBS: u64 = 11;

/// The number of `Format::Load`.
pub const LOAD: u64 = 12;

/// The number of `Format::Quanta`.
pub const QUANTA: u64 = 13;

/// The number of `Format::Trace`.
pub const TRACE: u64 = 14;

/// The number of `Format::C`.
pub const C: u64 = 15;

/// The number of `Format::Full`.
pub const FULL: u64 = 16;

/// The number of `Format::Html`.
pub const HTML: u64 = 17;

/// The number of `Format::Tables`.
pub const TABLES: u64 = 18;

/// The format of this number, of all slots.
pub fn format_numbered(number: u64) -> Option<Format>
    ensures { result ≡ format_numbered number }
{
    match number {
        SCHEDULE => Some(Format::Schedule(SlotRange::whole())),
        LAGS => Some(Format::Lags),
        MISSES => Some(Format::Misses),
        DENIALS => Some(Format::Denials),
        EVENTS => Some(Format::Events),
        SCRIPT => Some(Format::Script),
        JSON => Some(Format::Report),
        PROCESSORS => Some(Format::Processors),
        STATS => Some(Format::Stats),
        CHART => Some(Format::Chart(SlotRange::whole())),
        WINDOWS => Some(Format::Windows(SlotRange::whole())),
        JOBS => Some(Format::Jobs),
        LOAD => Some(Format::Load(SlotRange::whole())),
        QUANTA => Some(Format::Quanta(SlotRange::whole())),
        TRACE => Some(Format::Trace),
        C => Some(Format::C),
        FULL => Some(Format::Full),
        HTML => Some(Format::Html),
        TABLES => Some(Format::Tables),
        _ => None,
    }
}

/// The slots from `from` on and below `to`.
pub fn slots_between(from: u64, to: u64) -> SlotRange
    ensures { result ≡ slots_between from to }
{
    SlotRange {
        from: Some(from),
        to: Some(to),
    }
}

/// The format of this number, of these slots alone; `None` also where the format has no range.
pub fn part_numbered(number: u64, from: u64, to: u64) -> Option<Format>
    ensures { result ≡ part_numbered number from to }
{
    match format_numbered(number) {
        None => None,
        Some(format) => format.within(slots_between(from, to)),
    }
}
