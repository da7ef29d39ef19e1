ghost use Rattle.std.specs.Prelude.{◌≡◌, ◌+◌, ◌++◌, ◌∷◌, None, replicate, IfOk, IfErr, OnOk};
ghost use Rattle.std.specs.Arc.{arc_value};
ghost use Rattle.pf_board.specs.Passes.{new_passes};
ghost use Rattle.pf_desk.specs.declared.command.Command.TheVariants.{Step};
ghost use Rattle.pf_drill.specs.Drilled.{Drills, IsDrill, IsHalt, Stops, seen_in};
ghost use Rattle.pf_drill.specs.Gates.{SomeArrived};
ghost use Rattle.pf_drill.specs.Rounds.{IsInStep, ShowsPlan, commands_given};
ghost use Rattle.pf_script_desk.specs.Asked.{commands_in, commands_of, lines_asked};
ghost use Rattle.pf_share.specs.Locked.{origin_of};
ghost use Rattle.pf_share.specs.Opening.{new_viewers};

use crate::crew::drill_staffed;
use crate::gate::Gate;
use crate::output::drill_text;
use crate::planner::Planner;
use crate::rounds::Rounds;
use csv::ByteRecord;
use pf_desk::command::Command;
use pf_desk::snapshot::Snapshot;
use pf_script::line::Line;
use pf_script::line_reader::LineReader;
use pf_share::blank::Blank;
use pf_share::locked::Locked;
use pf_share::naming::Naming;
use pf_share::opened::Opened;
use pf_share::shared::Shared;
use pf_share::viewer::Viewer;
use pf_vocabulary::fault::fault::Fault;
use std::alloc::Global;
use std::sync::{Arc, Wait};
use std::thread::Threads;

/// Carries out the records after the settings on a desk that was just opened, and gives the text of the drill. Each record
/// is read into `row`.
pub(crate) fn drill_lines<
    N: Naming + Send + Sync,
    H: Wait + Drop + Send,
    R: Threads + Wait + Sync,
    G: Gate + Sync,
>(
    rt: &R,
    alloc: Global,
    blank: Blank<H>,
    lines: LineReader,
    row: ByteRecord,
    gate: &G,
) -> Result<Vec<u8>, Fault>
    requires name { (blank.board ≡ N.board) × (blank.book ≡ N.book) }
    requires passes { blank.passes ≡ new_passes N.board.id N.board.terms (N.board.terms.processors + 1) }
    requires viewers { blank.viewers ≡ new_viewers (origin_of N.board N.book) 1 }
    ensures drilled { IfOk result (λ text. Drills (G.lets_in gate.now) (lines_asked N.board.terms lines.entry) text.items) }
    ensures stopped { IfErr result (Stops (SomeArrived (G.shuts_out gate.now)) (lines_asked N.board.terms lines.entry)) }
{
    let Opened {
        shared,
        mut passes,
        mut viewers,
    } = blank.start::<N>();
    let Some(mut viewer) = viewers.pop() else {
        return Err(Fault::NoViewer);
    };
    let Some(pass) = passes.pop() else {
        return Err(Fault::NoViewer);
    };
    let planner = Planner::new::<N>(alloc, pass);
    let rounds = Rounds::new(passes.len() as u64);
    let staffed = drill_staffed(
        rt, alloc, &shared, gate, &rounds, passes, planner, lines, row,
    );
    match staffed {
        Ok(planner) => finish(rt, alloc, &shared, planner, &mut viewer),
        Err(fault) => Err(fault),
    }
}

/// The text of the drill, once all lines were taken.
///
/// # Errors
///
/// `Unread` and `NoMemory`.
fn finish<N: Naming, H: Wait + Drop>(
    rt: &impl Wait,
    alloc: Global,
    shared: &Shared<N, Locked<N, H>>,
    mut planner: Planner,
    viewer: &mut Viewer,
) -> Result<Vec<u8>, Fault>
    requires step { IsInStep N.board.id N.board.terms planner }
    requires viewer { viewer.old.origin ≡ origin_of N.board N.book }
    ensures drilled { IfOk result (λ text. IsDrill N.board.terms (commands_given planner) planner.issued.items text.items) }
    ensures halt { IfErr result (IsHalt ⊥) }
{
    let snapshot = match last_snapshot(rt, shared, &mut planner, viewer) {
        Ok(snapshot) => snapshot,
        Err(fault) => return Err(fault),
    };
    match drill_text(alloc, &snapshot, planner.issued) {
        Ok(text) => Ok(text),
        Err(_) => Err(Fault::NoMemory),
    }
}

/// Does what the lines ask for, one after another.
pub(crate) fn take_lines<N: Naming, H: Wait + Drop>(
    rt: &impl Wait,
    shared: &Shared<N, Locked<N, H>>,
    rounds: &Rounds,
    planner: &mut Planner,
    mut lines: LineReader,
    mut row: ByteRecord,
) -> Result<(), Fault>
    requires step { IsInStep N.board.id N.board.terms planner.old }
    ensures step { OnOk result (IsInStep N.board.id N.board.terms planner.new) }
    ensures whole { OnOk result (lines.entry.fault ≡ None) }
    ensures commands { OnOk result (commands_given planner.new ≡ commands_given planner.old ++ commands_in lines.entry.lines) }
    ensures stopped { IfErr result (Stops ⊥ (lines_asked N.board.terms lines.entry)) }
{
    'records: while let Some(line) = lines.next(&mut row)? {
        match take_line(rt, shared, rounds, planner, line.asks) {
            Ok(()) => (),
            Err(fault) => return Err(fault),
        }
    }
    Ok(())
}

/// Does what a line asks for.
fn take_line<N: Naming, H: Wait + Drop>(
    rt: &impl Wait,
    shared: &Shared<N, Locked<N, H>>,
    rounds: &Rounds,
    planner: &mut Planner,
    line: Line,
) -> Result<(), Fault>
    requires step { IsInStep N.board.id N.board.terms planner.old }
    ensures step { OnOk result (IsInStep N.board.id N.board.terms planner.new) }
    ensures commands { OnOk result (commands_given planner.new ≡ commands_given planner.old ++ commands_of line) }
    ensures halt { IfErr result (IsHalt ⊥) }
{
    match line {
        Line::Edit { change, strict } => {
            planner.answer(rt, shared, rounds, Command::Edit { change, strict })
        }
        Line::Steps(count) => take_steps(rt, shared, rounds, planner, count),
    }
}

/// Takes so many steps.
fn take_steps<N: Naming, H: Wait + Drop>(
    rt: &impl Wait,
    shared: &Shared<N, Locked<N, H>>,
    rounds: &Rounds,
    planner: &mut Planner,
    count: u64,
) -> Result<(), Fault>
    requires step { IsInStep N.board.id N.board.terms planner.old }
    ensures step { OnOk result (IsInStep N.board.id N.board.terms planner.new) }
    ensures commands { OnOk result (commands_given planner.new ≡ commands_given planner.old ++ replicate count Step) }
    ensures halt { IfErr result (IsHalt ⊥) }
{
    for _turn in 0..count {
        match planner.answer(rt, shared, rounds, Command::Step) {
            Ok(()) => (),
            Err(fault) => return Err(fault),
        }
    }
    Ok(())
}

/// The snapshot of the history, which is that of the planner's commands alone.
///
/// # Errors
///
/// `NoMemory` where memory is refused; `Unread` where the readers' table gives no entry, the snapshot takes no further owner, or it
/// is of a longer history.
fn last_snapshot<N: Naming, H: Wait + Drop>(
    rt: &impl Wait,
    shared: &Shared<N, Locked<N, H>>,
    planner: &mut Planner,
    viewer: &mut Viewer,
) -> Result<Arc<Snapshot>, Fault>
    requires step { IsInStep N.board.id N.board.terms planner.old }
    requires viewer { viewer.old.origin ≡ origin_of N.board N.book }
    ensures planner { planner.new ≡ planner.old }
    ensures shown { IfOk result (λ snapshot. ShowsPlan N.board.terms planner.old (arc_value snapshot)) }
    ensures halt { IfErr result (IsHalt ⊥) }
{
    let Ok(()) = shared.tell(rt, &mut planner.pass, viewer) else {
        return Err(Fault::NoMemory);
    };
    let Ok(snapshot) = shared.read(viewer) else {
        return Err(Fault::Unread);
    };
    if snapshot.version() != planner.answered {
        return Err(Fault::Unread);
    }
    Ok(snapshot)
}
