ghost use Rattle.std.specs.Prelude.{◌≡◌, ◌<◌, ◌-◌, drop, slice_index_or};
ghost use Rattle.pf_script.specs.Left.{lines_left};
ghost use Rattle.pf_script_results.specs.Places.{place_of_origin};

use pf_plain_script::origin::Origin;
use pf_run_notes::place::Place;
use pf_script::record_lines::RecordLines;

/// Where the records of a script stand, asked for by numbers that rise.
#[derive(Drop)]
pub(crate) enum Places<'a> {
    /// Of a script that belongs to a plan: the records that its own come from.
    Origins(&'a [Origin]),
    /// Of any other.
    Lines(LinesLeft<'a>),
}

/// The lines of a script's records.
#[derive(Drop)]
pub(crate) struct LinesLeft<'a> {
    /// Those that are left.
    lines: RecordLines<'a>,
    /// How many were passed.
    behind: u64,
}

impl<'a> Places<'a> {
    ghost use Rattle.std.specs.Prelude.{◌≡◌, ◌<◌, ℕ, List, Option};
    ghost use Rattle.std.specs.Option.{option_map};
    ghost use Rattle.pf_plain_script.specs.declared.origin.Origin.{Origin};
    ghost use Rattle.pf_script_results.specs.Places.{ArePlaces, place_of};

    /// Those of a script of these bytes, with the records that its own come from, where it belongs to a plan.
    pub(crate) fn new(script: &'a [u8], origins: Option<&'a [Origin]>) -> Self
        ensures { ArePlaces (option_map (λ o. o.now) origins.entry) script.now 0 result }
    {
        match origins {
            Some(origins) => Places::Origins(origins),
            None => Places::Lines(LinesLeft {
                lines: RecordLines::new(script),
                behind: 0,
            }),
        }
    }

    /// The place of the record of this number, which is above those that were asked for.
    pub(crate) fn place_of(&mut self, number: u64) -> Place
        ensures place { (origins : Option (List Origin)) (script : List ℕ) (bound : ℕ) → ArePlaces origins script bound self.old → bound < number →
            result ≡ place_of origins script number }
        ensures left { (origins : Option (List Origin)) (script : List ℕ) (bound : ℕ) → ArePlaces origins script bound self.old → bound < number →
            ArePlaces origins script number self.new }
    {
        match self {
            Places::Origins(origins) => place_among(origins, number),
            Places::Lines(left) => left.place_of(number),
        }
    }
}

/// The record that the one of this number comes from.
#[tactic(auto, using(crate::proofs::Standing::given_origin))]
fn place_among(origins: &[Origin], number: u64) -> Place
    ensures { result ≡ place_of_origin (slice_index_or origins.now (number - 1) (record { number = number; line = 0; column = 1 })) }
{
    let place = number.saturating_sub(1) as usize;
    let unknown = Origin {
        number,
        line: 0,
        column: 1,
    };
    let origin = origins.get(place).copied().unwrap_or(unknown);
    Place {
        record: origin.number,
        line: origin.line,
        column: origin.column,
    }
}

impl LinesLeft<'_> {
    ghost use Rattle.std.specs.Prelude.{◌<◌};
    ghost use Rattle.pf_script.specs.Left.{lines_left};
    ghost use Rattle.pf_script_results.specs.Places.{IsBehind};

    /// The place of the record of this number; line 0 where it was passed.
    fn place_of(&mut self, number: u64) -> Place
        ensures { self.old.behind < number → IsBehind number (lines_left self.old.lines) self.old.behind result (lines_left self.new.lines) self.new.behind }
    {
        if number <= self.behind {
            return Place {
                record: number,
                line: 0,
                column: 1,
            };
        }
        let line = line_of(&mut self.lines, self.behind, number);
        self.behind = number;
        Place {
            record: number,
            line,
            column: 1,
        }
    }
}

/// The line of the record of this number, where these are the lines after so many records.
fn line_of(lines: &mut RecordLines<'_>, behind: u64, number: u64) -> u64
    requires { behind < number }
    ensures line { result ≡ slice_index_or (lines_left lines.old) (number - behind - 1) 0 }
    ensures left { lines_left lines.new ≡ drop (number - behind) (lines_left lines.old) }
{
    for _turn in 0..number - behind - 1 {
        let _ = lines.next_line();
    }
    lines.next_line()
}
