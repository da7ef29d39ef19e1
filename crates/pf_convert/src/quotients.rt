ghost use Rattle.std.specs.Prelude.{◌≡◌, ◌≤◌, ◌<◌, All};
ghost use Rattle.pf_convert.specs.declared.quantum.TheConstants.{LONGEST_QUANTUM};
ghost use Rattle.pf_convert.specs.Quotients.{is_tried, quotients_to};

use crate::words::quanta::{MOST_QUANTA, Quanta};

/// Whether the quotient of the time by this number is tried.
fn is_tried(whole: bool, switch: u64, time: u64, parts: u64) -> bool
    requires { 1 ≤ parts }
    ensures { result ≡ is_tried whole switch time parts }
{
    if time / parts <= switch {
        return false;
    }
    if whole {
        return time % parts == 0;
    }
    parts == 1 || time / parts < time / (parts - 1)
}

/// The quotients of a time by 1 to 64 that are above the switch, the longest first, each once: those that leave no rest where
/// only whole ones are asked for, else those rounded down to whole nanoseconds.
#[tactic(auto, unfolding(crate::specs::Quotients::quotients_to))]
pub fn quotients(whole: bool, switch: u64, time: u64) -> Quanta
    requires { time ≤ LONGEST_QUANTUM }
    ensures quotients { result ≡ quotients_to whole switch time 64 }
    ensures longer { All (λ q. switch < q) result }
    ensures short { All (λ q. q ≤ LONGEST_QUANTUM) result }
{
    let mut quanta = Quanta::new();
    for count in 0..MOST_QUANTA {
        let parts = count as u64 + 1;
        if is_tried(whole, switch, time, parts) {
            quanta.push(time / parts);
        }
    }
    quanta
}
