ghost use Rattle.std.specs.Prelude.{◌≡◌};
ghost use Rattle.pf_why.specs.Rule.{rule_of, rule_word};

use crate::subtask::Subtask;

/// The first component of the order of PD2 in which two subtasks differ.
#[derive(Clone, Copy)]
pub enum Rule {
    /// Their deadlines.
    Deadline,
    /// Their bits.
    Bit,
    /// Their group deadlines, beside two bits of 1.
    Group,
    /// Their task numbers.
    Task,
}

impl Rule {
    ghost use Rattle.std.specs.Prelude.{◌≡◌};
    ghost use Rattle.pf_why.specs.Rule.{rule_of, rule_word};

    /// The rule by which one of the two comes before the other.
    pub fn between(x: Subtask, y: Subtask) -> Self
        ensures { result ≡ rule_of x y }
    {
        if x.deadline != y.deadline {
            return Rule::Deadline;
        }
        if x.bit != y.bit {
            return Rule::Bit;
        }
        if x.bit == 1 && x.group != y.group {
            return Rule::Group;
        }
        Rule::Task
    }

    /// Its word.
    pub fn word(self) -> &'static str
        ensures { result.now ≡ rule_word self }
    {
        match self {
            Rule::Deadline => "deadline",
            Rule::Bit => "bit",
            Rule::Group => "group",
            Rule::Task => "task",
        }
    }
}
