ghost use Rattle.std.specs.Prelude.{◌≡◌, ◌≤◌, [], length, take, Ok, IfOk, IfErr};
ghost use Rattle.pf_vocabulary.specs.Fault.Faults.{IsUnwritten};
ghost use Rattle.pf_script.specs.Opened.{IsOpening};
ghost use Rattle.pf_replies.specs.Course.{opening_course};
ghost use Rattle.pf_change.specs.Change.{change_behind, change_meaning, lines_before};
ghost use Rattle.pf_change.specs.Difference.{told_by};
ghost use Rattle.pf_change.specs.Made.{Stops};

use crate::compare::compare;
use crate::lines::read_lines;
use crate::taking::show_behind;
use csv::ByteRecord;
use pf_script::opened::OpenedScript;
use pf_script::record::{LineTold, ScriptSettings};
use pf_script_desk::carrying_desk::CarryingDesk;
use pf_vocabulary::fault::answer::Answer;
use pf_vocabulary::fault::fault::Fault;
use pf_vocabulary::options::diff_options::DiffOptions;
use std::alloc::{AllocError, Global};

/// Carries out a script of these bytes, and answers what its records from `since` on changed, the last one where none is
/// given: the desk before that record beside the desk at the end, as these options have it told. Records are counted from 1,
/// and the heading and the settings are records too: before each of them, and where `since` is 0, the desk has its settings,
/// and nothing was done on it. Above the number of records the desk at the end stands beside itself, so no table has a row.
///
/// # Errors
///
/// `BadRecord` at the first record that is none of the script's, and `NoMemory` where memory is refused.
pub fn diff(
    alloc: Global,
    script: &[u8],
    since: Option<u64>,
    options: DiffOptions,
) -> Result<Answer, Fault>
    ensures made { IfOk result (λ answer. change_meaning options since script.now ≡ Ok (told_by answer)) }
    ensures quiet { IfOk result (λ answer. answer.ending.notes.items ≡ []) }
    ensures stopped { IfErr result (Stops (change_meaning options since script.now)) }
    ensures unwritten { IfErr result IsUnwritten }
{
    match diff_script(alloc, script, since, options) {
        Ok(answer) => Ok(answer),
        Err(fault) => Err(fault),
    }
}

/// What the records of a script of these bytes changed.
fn diff_script(
    alloc: Global,
    bytes: &[u8],
    since: Option<u64>,
    options: DiffOptions,
) -> Result<Answer, Fault>
    ensures made { IfOk result (λ answer. change_meaning options since bytes.now ≡ Ok (told_by answer)) }
    ensures quiet { IfOk result (λ answer. answer.ending.notes.items ≡ []) }
    ensures stopped { IfErr result (Stops (change_meaning options since bytes.now)) }
{
    let mut row = ByteRecord::new(alloc);
    let script = OpenedScript::open(alloc, bytes, &mut row)?;
    let opening = script.opening;
    let lines = match read_lines(alloc, script.lines, row) {
        Ok(lines) => lines,
        Err(fault) => return Err(fault),
    };
    match diff_lines(alloc, opening, &lines, since, options) {
        Ok(answer) => Ok(answer),
        Err(AllocError) => Err(Fault::NoMemory),
    }
}

/// What these lines changed after these settings.
fn diff_lines(
    alloc: Global,
    opening: ScriptSettings,
    lines: &[LineTold],
    since: Option<u64>,
    options: DiffOptions,
) -> Result<Answer, AllocError>
    requires { IsOpening opening }
    ensures told { IfOk result (λ answer.
        told_by answer ≡ change_behind options since (opening_course opening.every opening.settings) lines.now) }
    ensures quiet { IfOk result (λ answer. answer.ending.notes.items ≡ []) }
{
    let mut desk = CarryingDesk::open(alloc, opening.settings, opening.every)?;
    let (first, rest) = lines.split_at(count_before(lines, since));
    let before = show_behind(&mut desk, first)?;
    let after = show_behind(&mut desk, rest)?;
    compare(alloc, &before, &after, options)
}

/// How many lines come before the record that is asked for, or else before the last one.
fn count_before(lines: &[LineTold], since: Option<u64>) -> usize
    ensures lines { take result lines.now ≡ lines_before since lines.now }
    ensures within { result ≤ length lines.now }
{
    if lines.is_empty() {
        return 0;
    }
    match since {
        Some(since) => {
            let count = since.saturating_sub(lines[0].number);
            count.min(lines.len() as u64) as usize
        }
        None => lines.len() - 1,
    }
}
