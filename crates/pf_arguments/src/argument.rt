ghost use Rattle.std.specs.Prelude.{◌≡◌, false};
ghost use Rattle.clap.specs.Words.{rule_of};
ghost use Rattle.pf_arguments.specs.Rows.{rule_of_argument};

use crate::form::Form;
use clap::{Arg, ArgAction};
use std::alloc::Global;

/// One argument of a command, and what help says of it.
pub(crate) struct Argument {
    /// What it is read by.
    pub name: &'static str,
    /// The letter that stands for its name, where there is one.
    pub letter: Option<char>,
    /// How it is given.
    pub form: Form,
    /// Whether it has to be there.
    pub is_required: bool,
    /// What help says of it; an argument without a text is taken, and not shown.
    pub help: &'static str,
}

impl Argument {
    /// The argument as clap takes it.
    pub(crate) fn to_arg<'a>(&self, alloc: Global) -> Arg<'a>
        ensures rule { rule_of result ≡ rule_of_argument self.now }
        ensures local { result.global ≡ false }
    {
        let arg = Arg::new(alloc, self.name)
            .help(self.help)
            .hide(self.help.is_empty())
            .required(self.is_required);
        let arg = match self.letter {
            Some(letter) => arg.short(letter),
            None => arg,
        };
        match self.form {
            Form::Flag => arg.long(self.name).action(ArgAction::SetTrue),
            Form::Named(value) => arg.long(self.name).value_name(value).action(ArgAction::Set),
            Form::Placed(value) => arg.value_name(value).action(ArgAction::Set),
        }
    }
}
