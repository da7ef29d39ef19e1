ghost use Rattle.std.specs.Prelude.{◌≡◌, true, []};
ghost use Rattle.pf_desk_board.specs.Issuing.{AwaitsIssue};

use crate::calls::{DeskBoard, DeskKeeper};
use pf_board::quantum::Quantum;
use pf_order::pick::Pick;
use pf_place::row::Row;

/// Issues the quanta of a slot's row, each to its processor.
pub fn issue(board: &DeskBoard, keeper: &mut DeskKeeper, processors: u32, slot: u64, row: &Row)
    requires board { (keeper.old.board ≡ board.now.id) × (keeper.old.has_turn ≡ true) }
    requires processors { processors ≡ board.now.processors }
    requires awaits { AwaitsIssue processors keeper.old slot row.now }
    ensures { keeper.new ≡ record keeper.old { left = []; empty = keeper.new.empty } }
{
    for processor in 0..processors {
        if let Some(Pick { task, sub }) = row.get(processor) {
            let quantum = Quantum {
                slot,
                processor,
                task,
                sub,
            };
            board.issue(keeper, quantum);
        }
    }
}
