ghost use Rattle.std.specs.Prelude.{◌≡◌};
ghost use Rattle.pf_vocabulary.specs.TaskWords.Finding.{range_of};

use crate::names::name::Name;
use crate::names::names::Names;
use crate::task_words::task_word::{TaskWord, word_in};
use crate::tasks::task_list::TaskList;
use crate::tasks::task_range::TaskRange;
use std::alloc::{AllocError, Global};
use std::marker::Model;

/// A list of tasks, as words tell it: by numbers and ranges of them, and by names.
#[derive(Drop)]
pub struct TaskWords {
    words: Vec<TaskWord>,
}

impl Model for TaskWords {
    ghost use Rattle.std.specs.Prelude.{List};
    ghost use Rattle.pf_vocabulary.specs.declared.task_words.task_word.TaskWord.{TaskWord};

    ghost Value = { List TaskWord };

    ghost view = { λ l. l.words.items };
}

impl TaskWords {
    ghost use Rattle.std.specs.Prelude.{◌≡◌, option_map, IfOk, OnOk};
    ghost use Rattle.pf_vocabulary.specs.TaskWords.Reading.{with_item, word_in, words_in};
    ghost use Rattle.pf_vocabulary.specs.TaskWords.Finding.{ranges_of, unnamed_in};

    /// The list that a text is: items joined by commas, in any order, each of them a task's number, or a range `A-B` of these, or a
    /// name. `None` where it is none.
    ///
    /// # Errors
    ///
    /// Where memory is refused.
    pub fn read(alloc: Global, text: &[u8]) -> Result<Option<TaskWords>, AllocError>
        ensures { IfOk result (λ words. words ≡ words_in text.now) }
    {
        let mut words = TaskWords {
            words: Vec::new(alloc),
        };
        let mut start = 0;
        for end in 0..text.len() {
            if text[end] == b',' {
                words = match words.with(&text[start..end])? {
                    Some(more) => more,
                    None => return Ok(None),
                };
                start = end + 1;
            }
        }
        words.with(&text[start..])
    }

    /// The list with the item of this text after it; none where that is no item.
    fn with(self, item: &[u8]) -> Result<Option<TaskWords>, AllocError>
        ensures { IfOk result (λ words. words ≡ with_item self (word_in item.now)) }
    {
        let mut words = self.words;
        match word_in(item) {
            Some(word) => {
                words.push(word)?;
                Ok(Some(TaskWords { words }))
            }
            None => Ok(None),
        }
    }

    /// The first name in it that is that of no task.
    pub fn unnamed(&self, names: &Names) -> Option<&Name>
        ensures { option_map (λ name. name.now) result ≡ unnamed_in names.now self.now }
    {
        for word in &self.words {
            if let TaskWord::Named(name) = word {
                if names.task_of(name.as_bytes()).is_none() {
                    return Some(name);
                }
            }
        }
        None
    }

    /// The tasks that it has, where tasks have these names. A name that is that of no task has none.
    ///
    /// # Errors
    ///
    /// Where memory is refused.
    pub fn tasks(&self, alloc: Global, names: &Names) -> Result<TaskList, AllocError>
        ensures { IfOk result (λ list. list ≡ ranges_of names.now self.now) }
    {
        let mut ranges = Vec::new(alloc);
        for word in &self.words {
            if let Some(range) = range_of(names, word) {
                ranges.push(range)?;
            }
        }
        Ok(TaskList::new(ranges))
    }
}

/// The tasks of an item; none where its name is that of no task.
fn range_of(names: &Names, word: &TaskWord) -> Option<TaskRange>
    ensures { result ≡ range_of names.now word.now }
{
    match word {
        TaskWord::Numbers(range) => Some(*range),
        TaskWord::Named(name) => {
            let task = names.task_of(name.as_bytes())?;
            Some(TaskRange {
                first: task,
                last: task,
            })
        }
    }
}
