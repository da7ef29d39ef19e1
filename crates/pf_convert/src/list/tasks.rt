ghost use Rattle.std.specs.Prelude.{ℕ, List, ◌≡◌, OnErr, OnOk};
ghost use Rattle.std.specs.BTreeMap.{get_by_text};
ghost use Rattle.pf_convert.specs.List.Reading.{line_with};

use crate::list::listed::Listed;
use std::alloc::{AllocError, Global};
use std::collections::BTreeMap;
use std::marker::Model;

/// The tasks of a list, of which a name is found without a look at each. Contracts see it as the tasks.
#[derive(Drop)]
pub struct Tasks {
    tasks: Vec<Listed>,
    /// Of each name the line of the first task that has it.
    lines: BTreeMap<String, u64>,
}

impl Model for Tasks {
    ghost use Rattle.std.specs.Prelude.{ℕ, List, ◌≡◌};
    ghost use Rattle.std.specs.BTreeMap.{get_by_text};
    ghost use Rattle.pf_convert.specs.declared.list.listed.Listed.{Listed};
    ghost use Rattle.pf_convert.specs.List.Reading.{line_of};

    ghost Value = { List Listed };

    ghost view = { λ t. t.tasks.items };

    ghost invariant = { λ t. (name : List ℕ) → get_by_text t.lines name ≡ line_of t.tasks.items name };
}

impl Tasks {
    ghost use Rattle.std.specs.Prelude.{◌≡◌, [], ◌∷◌, ◌++◌, OnErr, OnOk};
    ghost use Rattle.pf_convert.specs.List.Reading.{line_of};

    /// No tasks.
    pub fn new(alloc: Global) -> Self
        ensures { result ≡ [] }
    {
        Tasks {
            tasks: Vec::new(alloc),
            lines: BTreeMap::new(alloc),
        }
    }

    /// The tasks, in their order.
    pub fn as_slice(&self) -> &[Listed]
        ensures { result.now ≡ self.now }
    {
        &self.tasks
    }

    /// The line of the first task with this name, if there is one.
    pub fn line_of(&self, name: &str) -> Option<u64>
        ensures { result ≡ line_of self.now name.now }
    {
        self.lines.get(name).copied()
    }

    /// Adds a task after the others.
    ///
    /// # Errors
    ///
    /// Where memory is refused: nothing is added.
    pub fn push(&mut self, alloc: Global, task: Listed) -> Result<(), AllocError>
        ensures added { OnOk result (self.new ≡ self.old ++ task ∷ []) }
        ensures refused { OnErr result (self.new ≡ self.old) }
    {
        self.tasks.reserve(1)?;
        note_line(alloc, &mut self.lines, task.name.as_str(), task.line)?;
        self.tasks.push_reserved(task);
        Ok(())
    }
}

/// Notes the line of a name that has none yet.
fn note_line(
    alloc: Global,
    lines: &mut BTreeMap<String, u64>,
    name: &str,
    line: u64,
) -> Result<(), AllocError>
    ensures noted { OnOk result ((other : List ℕ) → get_by_text lines.new other ≡ line_with (get_by_text lines.old other) name.now line other) }
    ensures refused { OnErr result ((other : List ℕ) → get_by_text lines.new other ≡ get_by_text lines.old other) }
{
    if lines.contains_key(name) {
        return Ok(());
    }
    let name = String::from_str(alloc, name)?;
    lines.insert(name, line)?;
    Ok(())
}
