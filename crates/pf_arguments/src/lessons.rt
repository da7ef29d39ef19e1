//! What help teaches after the words of a command: how it is used, its statuses and an example.
ghost use Rattle.std.specs.Prelude.{◌≡◌, map};
ghost use Rattle.pf_arguments.specs.Help.{lesson_named, lesson_of};

pub mod check;
pub mod convert;
pub mod desk;
pub mod diff;
pub mod drill;
pub mod fit;
pub mod program;
pub mod run;
pub mod why;

use crate::lessons::check::CHECK;
use crate::lessons::convert::CONVERT;
use crate::lessons::desk::DESK;
use crate::lessons::diff::DIFF;
use crate::lessons::drill::DRILL;
use crate::lessons::fit::FIT;
use crate::lessons::program::PROGRAM;
use crate::lessons::run::RUN;
use crate::lessons::why::WHY;
use std::convert::AsStr;

/// The lesson of the command that words name, the first of them or the one after `help`; that of the program where they name none.
pub(crate) fn lesson_of<S: AsStr>(words: &[S]) -> &'static str
    ensures { result.now ≡ lesson_of (map S.text words.now) }
{
    match words {
        [first, second, ..] if first.as_str() == "help" => lesson_named(second.as_str()),
        [first, ..] => lesson_named(first.as_str()),
        [] => PROGRAM,
    }
}

/// The lesson of the command of this name; that of the program where there is none.
#[tactic(auto, unfolding(crate::specs::Help::lesson_named))]
fn lesson_named(name: &str) -> &'static str
    ensures { result.now ≡ lesson_named name.now }
{
    match name {
        "fit" => FIT,
        "run" => RUN,
        "why" => WHY,
        "check" => CHECK,
        "diff" => DIFF,
        "convert" => CONVERT,
        "desk" => DESK,
        "drill" => DRILL,
        _ => PROGRAM,
    }
}
