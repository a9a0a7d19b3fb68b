//! Words that are not read, and how that is told.
ghost use Rattle.std.specs.Prelude.{List};
ghost use Rattle.oci_types.specs.Text.{Text};
ghost use Rattle.registry_orders.specs.Failures.{IsOfWords};
ghost use Rattle.registry_orders.specs.Reading.{IsToldOfWords};

use crate::cause::Cause;
use crate::failure::Failure;
use crate::layout::layout_given;
use crate::place::place_given;
use crate::settings::settings_given;
use clap::{ArgMatches, Error};

/// What the command line was answered.
#[derive(Drop)]
pub enum Told<'a> {
    Failed(Failure),
    /// The options of a subcommand do not go together; the cause says which it wants.
    Options { word: &'a str, cause: Cause },
    Line(Error),
}

/// Which options a subcommand wants that got others. Of an order its place is told first, then the layout of
/// a new registry, and then its token; of what is served the scheme by which clients log in, and then that
/// layout. A subcommand that is neither has one place, which `clap` wants.
fn wanted(word: &str, matches: &ArgMatches) -> Option<Cause> {
    match word {
        "stdio" | "serve" if settings_given(matches).is_err() => Some(Cause::LoginOptions),
        "stdio" | "serve" if layout_given(matches).is_err() => Some(Cause::LayoutOptions),
        "stdio" | "serve" => Some(Cause::RegistryOptions),
        _ if place_given(matches).is_err() => Some(Cause::PlaceOptions),
        _ if layout_given(matches).is_err() => Some(Cause::LayoutOptions),
        "grant" | "revoke" | "grants" => Some(Cause::TokenOptions),
        _ => None,
    }
}

/// How it is told that the words of a subcommand are not read.
pub fn told_of<'a>(word: &'a str, matches: &ArgMatches, failure: Failure) -> Told<'a>
    ensures { (words : List Text) → IsOfWords failure → IsToldOfWords words result }
{
    match failure {
        Failure::InvalidOptions => match wanted(word, matches) {
            Some(cause) => Told::Options { word, cause },
            None => Told::Failed(failure),
        },
        _ => Told::Failed(failure),
    }
}
