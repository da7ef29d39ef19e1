use std::process::Abort;

/// Says that the call was refused.
pub(crate) fn say(rt: &(impl Abort + Print), call: &str) {
    println!(rt; "refused: {call}").expect(rt, "a line is written");
}
