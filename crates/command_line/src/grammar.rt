//! The program with its subcommands.
ghost use Rattle.std.specs.Prelude.{map, IfOk};
ghost use Rattle.clap.specs.Words.{App, with_subcommand};
ghost use Rattle.command_line.specs.CommandLine as spec;
ghost use Rattle.command_line.specs.CommandLine.{IsApp, IsSub};
ghost use Rattle.command_line.specs.Options.{rule_shown};
ghost use Rattle.command_line.specs.Subcommands.{sub_shown, with_all};

use crate::arguments::argument;
use crate::options::SubOption;
use crate::results::both;
use crate::subcommands::{SUBCOMMANDS, Subcommand};
use clap::Command;
use std::alloc::{AllocError, Global};

/// A subcommand with these options, in their order.
fn with_options<'a>(
    alloc: Global,
    word: &'a str,
    about: &'a str,
    options: &[SubOption<'a>],
) -> Result<Command<'a>, AllocError>
    ensures { IfOk result (IsSub (spec.subcommand word.entry.now (map rule_shown options.now))) }
{
    let mut command = Command::new(alloc, word).about(about);
    for option in options {
        command = command.arg(argument(alloc, option))?;
    }
    Ok(command)
}

/// The command with one more subcommand.
fn with<'a>(
    alloc: Global,
    command: Result<Command<'a>, AllocError>,
    sub: &Subcommand<'a>,
) -> Result<Command<'a>, AllocError>
    ensures { (app : App) → IfOk command.entry (IsApp app)
        → IfOk result (IsApp (with_subcommand app (sub_shown sub.now))) }
{
    let made = with_options(alloc, sub.word, sub.about, sub.options);
    let (command, made) = both(command, made)?;
    command.subcommand(made)
}

/// The program by itself, with no subcommand.
fn program<'a>(alloc: Global) -> Result<Command<'a>, AllocError>
    ensures { IfOk result (IsApp spec.program) }
{
    Command::new(alloc, "registry")
        .about("An OCI artifact registry")
        .version("0.2.0")
        .no_binary_name(true)
        .subcommand_required(true)
        .bin_name("registry")
}

/// The program with these subcommands, in their order. There is no `?` in the loop, which would have the
/// command in its way, to be dropped there.
fn with_each<'a>(alloc: Global, subs: &[Subcommand<'a>]) -> Result<Command<'a>, AllocError>
    ensures { IfOk result (IsApp (with_all spec.program (map sub_shown subs.now))) }
{
    let mut command = program(alloc);
    for sub in subs {
        command = with(alloc, command, sub);
    }
    command
}

/// The command line of the program, with all its subcommands. The error is want of memory.
pub fn command<'a>(alloc: Global) -> Result<Command<'a>, AllocError>
    ensures { IfOk result (IsApp spec.registry) }
{
    with_each(alloc, &SUBCOMMANDS)
}
