ghost use Rattle.std.specs.Prelude.{◌≡◌};
ghost use Rattle.pf_arguments.specs.Mistakes.Told.{before_value, mistake_words, whole_words};

use pf_convert::words::mistake::ConvertMistake;
use pf_vocabulary::questions::mistake::WhyMistake;

/// Why words that the grammar takes ask for nothing.
#[derive(Clone, Copy)]
pub enum Mistake {
    /// The text of `--format` names no format.
    UnknownFormat,
    /// The text of `--from` or `--to` is no number of 1 to 15 digits.
    BadNumber,
    /// `--from` or `--to` stands beside one of the formats without a range that were there before `load`.
    NoRange,
    /// `--from` or `--to` stands beside another format without a range.
    Unranged,
    /// The text of `--cell` is no number of 6 to 40.
    BadCell,
    /// `--cell` stands beside a format other than `svg`.
    NoCell,
    /// The text of `--wrap` is no number of 1 to 4096.
    BadWrap,
    /// `--wrap` stands beside a format other than `svg`.
    NoWrap,
    /// The text of `--style` names no style.
    BadStyle,
    /// `--style` stands beside a format other than `svg`.
    NoStyle,
    /// The text of `--task` is no list of tasks.
    BadTasks,
    /// `--task` stands beside a format that tells of no tasks, or of all of them.
    NoTasks,
    /// The text of `--fail-on` is no list of what a run may fail on.
    BadFailOn,
    /// The text of `--since` is no number of a record.
    BadSince,
    /// `--since` stands beside two scripts.
    SinceOfTwo,
    /// Of two scripts both are standard input.
    InputTwice,
    /// A word of a conversion is mistaken.
    Convert(ConvertMistake),
    /// What is asked of a slot is mistaken.
    Why(WhyMistake),
}

impl Mistake {
    /// The words of a short message, without a line end; those of a conversion have their own.
    pub(crate) fn words(self) -> &'static str
        ensures { result.now ≡ mistake_words self }
    {
        match self {
            Mistake::UnknownFormat => "unknown format",
            Mistake::BadNumber => "--from and --to take a number of 1 to 15 digits",
            Mistake::NoRange => "--from and --to are for the formats schedule, chart and svg",
            Mistake::Unranged => {
                "--from and --to are for the formats schedule, chart, svg, windows, load and quanta"
            }
            Mistake::BadCell => "--cell takes a number of 6 to 40",
            Mistake::NoCell => "--cell is for the format svg",
            Mistake::BadWrap => "--wrap takes a number of 1 to 4096",
            Mistake::NoWrap => "--wrap is for the format svg",
            Mistake::BadStyle => "--style takes strips or stairs",
            Mistake::NoStyle => "--style is for the format svg",
            Mistake::BadTasks => {
                "--task takes task numbers of 1 to 4095, ranges of them and names, joined by commas"
            }
            Mistake::NoTasks => {
                "--task is for the formats windows, jobs, quanta, stats, lags, misses, chart and svg"
            }
            Mistake::BadFailOn => "--fail-on takes refused, denied and missed, joined by commas",
            Mistake::BadSince => "--since takes a number of 1 to 15 digits, from 1 on",
            Mistake::SinceOfTwo => "--since is for one script",
            Mistake::InputTwice => "standard input is read once",
            Mistake::Convert(_) => "",
            Mistake::Why(mistake) => mistake.words(),
        }
    }

    /// The words of a whole message, before the value: they name all formats that have a range.
    pub(crate) fn whole_words(self) -> &'static str
        ensures { result.now ≡ whole_words self }
    {
        match self {
            Mistake::NoRange => Mistake::Unranged.words(),
            _ => self.words(),
        }
    }

    /// What stands between these words and the value.
    pub(crate) fn before_value(self) -> &'static str
        ensures { result.now ≡ before_value self }
    {
        match self {
            Mistake::UnknownFormat | Mistake::Why(WhyMistake::Format) => " ",
            _ => ", not ",
        }
    }
}
