ghost use Rattle.std.specs.Prelude.{◌≡◌, IfOk};
ghost use Rattle.clap.specs.Words.{app_of, with_subcommand};
ghost use Rattle.pf_arguments.specs.Rows.{shape_of_subcommand};

use crate::argument::Argument;
use clap::Command;
use std::alloc::{AllocError, Global};

/// A subcommand, what help says of it, and its arguments.
#[derive(Clone, Copy)]
pub(crate) struct Subcommand {
    pub name: &'static str,
    pub about: &'static str,
    pub arguments: &'static [Argument],
}

impl Subcommand {
    /// The program with this subcommand too.
    pub(crate) fn add_to<'a>(
        &self,
        alloc: Global,
        program: Command<'a>,
    ) -> Result<Command<'a>, AllocError>
        ensures { IfOk result (λ c. app_of c ≡ with_subcommand (app_of program.entry) (shape_of_subcommand self.now)) }
    {
        let mut command = Command::new(alloc, self.name).about(self.about);
        for argument in self.arguments {
            command = command.arg(argument.to_arg(alloc))?;
        }
        program.subcommand(command)
    }
}
