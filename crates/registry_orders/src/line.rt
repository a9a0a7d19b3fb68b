//! The words of a command line, read by its grammar.
ghost use Rattle.std.specs.Prelude.{List, IfErr, IfOk, map};
ghost use Rattle.clap.specs.Words.{subcommand_rows_of};
ghost use Rattle.oci_types.specs.Text.{Text};
ghost use Rattle.registry_orders.specs.Reading.{IsToldOfWords};
ghost use Rattle.registry_orders.specs.Tasks.{IsTask, IsTaskOf};

use crate::failure::Failure;
use crate::tasks::{Task, task_of};
use crate::unread::{Told, told_of};
use clap::ArgMatches;
use command_line::command;
use std::alloc::Global;
use std::convert::AsStr;

/// Reads what `clap` found in the words.
fn read_matches<'a>(alloc: Global, matches: &ArgMatches<'a>) -> Result<Task<'a>, Told<'a>>
    ensures read { IfOk result (IsTaskOf (subcommand_rows_of matches.now)) }
    ensures refused { (words : List Text) → IfErr result (IsToldOfWords words) }
{
    match matches.subcommand() {
        Some((word, matches)) => match task_of(alloc, word, matches) {
            Ok(task) => Ok(task),
            Err(failure) => Err(told_of(word, matches, failure)),
        },
        None => Err(Told::Failed(Failure::InvalidOptions)),
    }
}

/// Reads the words: what `clap` refuses is told first, then options that do not go together or do not
/// split, of which the place of an order is told before its layout and its token, then a name, then a token
/// that is none.
/// No database is opened here, and no server is asked.
pub fn read_words<'a, S: AsStr>(alloc: Global, words: &'a [S]) -> Result<Task<'a>, Told<'a>>
    ensures read { IfOk result (IsTask (map S.text words.entry.now)) }
    ensures refused { IfErr result (IsToldOfWords (map S.text words.entry.now)) }
{
    let command = match command(alloc) {
        Ok(command) => command,
        Err(_) => return Err(Told::Failed(Failure::OutOfMemory)),
    };
    match command.try_get_matches_from(words) {
        Ok(matches) => read_matches(alloc, &matches),
        Err(error) => Err(Told::Line(error)),
    }
}
