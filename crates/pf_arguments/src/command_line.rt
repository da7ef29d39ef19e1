ghost use Rattle.std.specs.Prelude.{◌≡◌, [], IfOk, map};
ghost use Rattle.clap.specs.Words.{app_of};
ghost use Rattle.pf_arguments.specs.CommandLine.{program, program_with};
ghost use Rattle.pf_arguments.specs.Rows.{shape_of_subcommand};

use crate::subcommand::Subcommand;
use crate::subcommands::{check, convert, desk, diff, drill, fit, run, why};
use crate::texts::VERSION;
use clap::Command;
use std::alloc::{AllocError, Global};

// What `--help` says of the program.
const ABOUT: &str = "Schedules periodic tasks on processors, slot by slot (Pfair, by PD2)";

/// The words that the program knows.
pub(crate) fn program<'a>(alloc: Global) -> Result<Command<'a>, AllocError>
    ensures { IfOk result (λ c. app_of c ≡ program) }
{
    let subcommands = [
        fit(),
        run(),
        why(),
        check(),
        diff(),
        convert(),
        desk(),
        drill(),
    ];
    program_with(alloc, &subcommands)
}

/// The program with these subcommands.
fn program_with<'a>(alloc: Global, subcommands: &[Subcommand]) -> Result<Command<'a>, AllocError>
    ensures { IfOk result (λ c. app_of c ≡ program_with (map shape_of_subcommand subcommands.now)) }
{
    let mut program = bare_program(alloc)?;
    for subcommand in subcommands {
        program = subcommand.add_to(alloc, program)?;
    }
    Ok(program)
}

/// The program without any subcommand.
fn bare_program<'a>(alloc: Global) -> Result<Command<'a>, AllocError>
    ensures { IfOk result (λ c. app_of c ≡ program_with []) }
{
    Command::new(alloc, "pfair")
        .no_binary_name(true)
        .version(VERSION)
        .about(ABOUT)
        .bin_name("pfair")
}
