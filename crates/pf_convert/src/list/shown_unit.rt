ghost use Rattle.std.specs.Prelude.{◌≡◌};
ghost use Rattle.pf_convert.specs.List.Units.{shown_unit};

use crate::list::listed::Listed;
use pf_vocabulary::names::unit::Unit;

/// The unit in which the times of a list are shown: the one that is given, else that of `every` of the first task, where it carries
/// one, else milliseconds.
pub fn shown_unit(given: Option<Unit>, tasks: &[Listed]) -> Unit
    ensures { result ≡ shown_unit given tasks.now }
{
    if let Some(unit) = given {
        return unit;
    }
    match tasks {
        [first, ..] => first.unit.unwrap_or(Unit::Millisecond),
        [] => Unit::Millisecond,
    }
}
