ghost use Rattle.std.specs.Prelude.{◌≡◌, ◌≤◌, ◌<◌, ◌+◌, ◌-◌, ◌^◌, ◌&&◌, not, true, false, if◌then◌else◌};
ghost use Rattle.csv.specs.Reading.{strip_bom};
ghost use Rattle.pf_text.specs.Rows.Places.{is_between, line_after};
ghost use Rattle.pf_convert.specs.List.Quotes.{open_line, state_of};

use crate::list::reading_state::ReadingState;

/// The line of the record within whose quotes a list ends, if it does.
pub fn open_line(text: &[u8]) -> Option<u64>
    ensures { result ≡ open_line text.now }
{
    let mut state = ReadingState::Between;
    let mut line = 1;
    let mut before = 0;
    let mut begun = 0;
    let bytes = without_mark(text);
    for byte in bytes {
        let next = state.after(*byte);
        begun = begun_after(state, next, line, begun);
        line = line_after(line, before, *byte);
        before = *byte;
        state = next;
    }
    if state.is_quoted() { Some(begun) } else { None }
}

/// The line on which the last record begins after a byte of this line, where it was this one before.
fn begun_after(state: ReadingState, next: ReadingState, line: u64, begun: u64) -> u64
    ensures { result ≡ (if is_between (state_of state) && not (is_between (state_of next)) then line else begun) }
{
    if state.is_between() && !next.is_between() {
        line
    } else {
        begun
    }
}

/// The text without a byte order mark at its start.
#[tactic(auto, unfolding(csv::specs::Reading::strip_bom))]
pub fn without_mark(text: &[u8]) -> &[u8]
    ensures { result.now ≡ strip_bom text.now }
{
    match text {
        [0xEF, 0xBB, 0xBF, rest @ ..] => rest,
        _ => text,
    }
}

/// The line after this byte of a line, which lies after the byte `before`.
fn line_after(line: u64, before: u8, byte: u8) -> u64
    requires { line < 2 ^ 64 - 1 }
    ensures line { result ≡ line_after line before byte }
    ensures near { result ≤ line + 1 }
{
    if byte == b'\r' || (byte == b'\n' && before != b'\r') {
        line + 1
    } else {
        line
    }
}
