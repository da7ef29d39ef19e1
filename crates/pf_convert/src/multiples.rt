ghost use Rattle.std.specs.Prelude.{◌≤◌, MatchOption, All};
ghost use Rattle.pf_convert.specs.Multiples.{IsLeastOfBoth, NoneOfBoth, IsLeastCommon, HasNoCommon};

use crate::slotted::Slotted;
use pf_weight::base::LARGEST_BASE;

/// The least base that is a multiple of both, none where there is none. It looks at the multiples of `a`, so `a` is to be
/// the greater one.
fn first_multiple(a: u64, b: u64) -> Option<u64>
    requires first { 1 ≤ a }
    requires second { 1 ≤ b }
    ensures { MatchOption result (NoneOfBoth a b) (IsLeastOfBoth a b) }
{
    for k in 0..LARGEST_BASE / a {
        let multiple = a * (k + 1);
        if multiple % b == 0 {
            return Some(multiple);
        }
    }
    None
}

/// The least base that both divide, none where there is none.
#[tactic(auto, using(crate::proofs::Common::turned))]
pub fn least_of_both(a: u64, b: u64) -> Option<u64>
    requires first { 1 ≤ a }
    requires second { 1 ≤ b }
    ensures { MatchOption result (NoneOfBoth a b) (IsLeastOfBoth a b) }
{
    if a < b {
        return first_multiple(b, a);
    }
    first_multiple(a, b)
}

/// The least base that all the tasks' periods divide, none where there is none.
pub fn least_common(tasks: &[Slotted]) -> Option<u64>
    requires { All (λ t. 1 ≤ t.period) tasks.now }
    ensures { MatchOption result (HasNoCommon tasks.now) (IsLeastCommon tasks.now) }
{
    let mut least = 1;
    for task in tasks {
        least = least_of_both(least, task.period)?;
    }
    Some(least)
}
