ghost use Rattle.std.specs.Prelude.{ℕ, List, ◌≡◌, ◌++◌, [], IfOk, OnOk};
ghost use Rattle.pf_vocabulary.specs.TaskLines.Lines.{shown_from, shown_line};

use crate::task_lines::line::is_shown;
use crate::tasks::task_list::TaskList;
use pf_text::pieces::Pieces;
use std::alloc::{AllocError, Global};
use std::marker::Model;

/// The lines of a table in pieces that are of the tasks of a list, and those without a task, as the heading.
#[derive(Drop)]
pub struct ListedLines<P: Pieces> {
    pieces: P,
    tasks: TaskList,
    /// The column that has the task.
    column: usize,
    /// The front of the line that is being read.
    line: Vec<u8>,
}

impl<P: Pieces> Model for ListedLines<P> {
    ghost use Rattle.std.specs.Prelude.{ℕ, List};
    ghost use Rattle.pf_vocabulary.specs.TaskLines.Lines.{shown_from};

    ghost Value = { List ℕ };

    ghost view = { λ l. shown_from l.tasks l.column l.line.items (P.left l.pieces) };
}

impl<P: Pieces> ListedLines<P> {
    ghost use Rattle.std.specs.Prelude.{◌≡◌};
    ghost use Rattle.pf_vocabulary.specs.TaskLines.Lines.{listed_text};

    /// The lines of these pieces that are of these tasks, whose numbers stand in this column, counted from 0.
    pub fn new(alloc: Global, pieces: P, tasks: TaskList, column: usize) -> Self
        ensures { result ≡ listed_text tasks column (P.left pieces) }
    {
        ListedLines {
            pieces,
            tasks,
            column,
            line: Vec::new(alloc),
        }
    }
}

impl<P: Pieces> Pieces for ListedLines<P> {
    ghost left = { λ l. l };

    ghost outcome = { λ _. tt };

    fn next_piece(&mut self, alloc: Global) -> Result<Option<Vec<u8>>, AllocError> {
        'pieces: while let Some(piece) = self.pieces.next_piece(alloc)? {
            let shown = take_piece(alloc, &self.tasks, self.column, &mut self.line, &piece)?;
            if !shown.is_empty() {
                return Ok(Some(shown));
            }
        }
        let mut shown = Vec::new(alloc);
        take_line(&self.tasks, self.column, &mut self.line, &mut shown)?;
        if shown.is_empty() {
            return Ok(None);
        }
        Ok(Some(shown))
    }
}

/// What is shown of the lines that end in a piece; the front of the next one is kept.
fn take_piece(
    alloc: Global,
    tasks: &TaskList,
    column: usize,
    line: &mut Vec<u8>,
    piece: &[u8],
) -> Result<Vec<u8>, AllocError>
    ensures { IfOk result (λ shown. (rest : List ℕ) →
        shown_from tasks.now column line.old.items (piece.now ++ rest) ≡ shown.items ++ shown_from tasks.now column line.new.items rest) }
{
    let mut shown = Vec::new(alloc);
    for byte in piece {
        line.push(*byte)?;
        if *byte == b'\n' {
            take_line(tasks, column, line, &mut shown)?;
        }
    }
    Ok(shown)
}

/// Adds a line, where it is shown, and begins the next one.
fn take_line(
    tasks: &TaskList,
    column: usize,
    line: &mut Vec<u8>,
    shown: &mut Vec<u8>,
) -> Result<(), AllocError>
    ensures text { OnOk result (shown.new.items ≡ shown.old.items ++ shown_line tasks.now column line.old.items) }
    ensures line { OnOk result (line.new.items ≡ []) }
{
    if is_shown(tasks, column, line) {
        shown.extend_from_slice(line)?;
    }
    line.clear();
    Ok(())
}
