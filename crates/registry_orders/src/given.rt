//! What a subcommand was given, as `clap` found it.
ghost use Rattle.std.specs.Prelude.{◌≡◌, ◌↔◌, IfOk, IfErr, Some, codes, map, option_map, true};
ghost use Rattle.clap.specs.Words.{found_of, rows_of, all_of, first_of, one_of};
ghost use Rattle.registry_orders.specs.Failures.{IsOfWords};
ghost use Rattle.registry_orders.specs.Options.{IsNumberIf, IsNumberOf};

use crate::failure::Failure;
use clap::ArgMatches;

/// The text of an option that is given at most once.
pub fn text_given<'a>(matches: &ArgMatches<'a>, option: &str) -> Option<&'a str>
    ensures { option_map (λ text. text.now) result ≡ first_of option.now (rows_of (found_of matches.now)) }
{
    matches.get_str(option)
}

/// The texts of an option that may be given more than once.
pub fn texts_given<'b, 'a>(matches: &'b ArgMatches<'a>, option: &str) -> Option<&'b [&'a str]>
    ensures { option_map (λ texts. map (λ text. text.now) texts.now) result
        ≡ all_of option.now (rows_of (found_of matches.now)) }
{
    matches.get_strs(option)
}

/// The number of an option.
pub fn number_given(matches: &ArgMatches, option: &str) -> Result<u64, Failure>
    ensures found { IfOk result (IsNumberOf (one_of option.now (rows_of (found_of matches.now)))) }
    ensures refused { IfErr result IsOfWords }
{
    matches
        .get_one::<u64>(option)
        .ok_or(Failure::InvalidOptions)
}

/// The number of an option that may be left out.
pub fn number_if(matches: &ArgMatches, option: &str) -> Result<Option<u64>, Failure>
    ensures found { IfOk result (IsNumberIf (one_of option.now (rows_of (found_of matches.now)))) }
    ensures refused { IfErr result IsOfWords }
{
    match text_given(matches, option) {
        None => Ok(None),
        Some(_) => match number_given(matches, option) {
            Ok(number) => Ok(Some(number)),
            Err(failure) => Err(failure),
        },
    }
}

/// Whether a flag is given.
pub fn is_given(matches: &ArgMatches, flag: &str) -> bool
    ensures { (result ≡ true) ↔ (one_of flag.now (rows_of (found_of matches.now)) ≡ Some (codes "true")) }
{
    // `get_flag` reads the same, but says nothing of a text that is no `bool`.
    matches.get_one::<bool>(flag).unwrap_or(false)
}
