//! The arguments that read options.
ghost use Rattle.clap.specs.Words.{Rule};
ghost use Rattle.command_line.specs.CommandLine as spec;
ghost use Rattle.command_line.specs.CommandLine.{HasRule};
ghost use Rattle.command_line.specs.Options.{rule_shown};

use crate::options::{SubOption, Takes};
use clap::builder::ValueParser;
use clap::{Arg, ArgAction};
use std::alloc::Global;

/// An option with one value.
fn option<'a>(alloc: Global, word: &'a str, value: &'a str, help: &'a str) -> Arg<'a>
    ensures { HasRule (spec.option word.entry.now) result }
{
    Arg::new(alloc, word)
        .long(word)
        .value_name(value)
        .action(ArgAction::Set)
        .help(help)
}

/// The option, with a number from the least to the most.
fn within<'a>(option: Arg<'a>, least: u64, most: u64) -> Arg<'a>
    ensures { (rule : Rule) → HasRule rule option.entry → HasRule (spec.within least most rule) result }
{
    option.value_parser(ValueParser::unsigned(least, most))
}

/// An option that is given or not.
fn flag<'a>(alloc: Global, word: &'a str, help: &'a str) -> Arg<'a>
    ensures { HasRule (spec.flag word.entry.now) result }
{
    Arg::new(alloc, word)
        .long(word)
        .action(ArgAction::SetTrue)
        .help(help)
}

/// The argument that reads an option.
pub(crate) fn argument<'a>(alloc: Global, given: &SubOption<'a>) -> Arg<'a>
    ensures { HasRule (rule_shown given.now) result }
{
    let word = given.word;
    let help = given.help;
    match given.takes {
        Takes::Nothing => flag(alloc, word, help),
        Takes::One(value) => option(alloc, word, value, help),
        Takes::Required(value) => option(alloc, word, value, help).required(true),
        Takes::Many(value) => option(alloc, word, value, help).action(ArgAction::Append),
        Takes::Number { value, least, most } => {
            let wanted = option(alloc, word, value, help).required(true);
            within(wanted, least, most)
        }
        Takes::NumberOr {
            value,
            least,
            most,
            default,
        } => within(option(alloc, word, value, help), least, most).default_value(default),
        Takes::NumberIf { value, least, most } => {
            within(option(alloc, word, value, help), least, most)
        }
    }
}
