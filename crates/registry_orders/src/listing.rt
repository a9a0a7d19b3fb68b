//! What an operator asks to see, and in which form.
ghost use Rattle.std.specs.Prelude.{IfOk, IfErr};
ghost use Rattle.clap.specs.Words.{found_of, rows_of};
ghost use Rattle.registry_orders.specs.Failures.{IsOfWords};
ghost use Rattle.registry_orders.specs.Orders.{IsHeldIn, IsShownIn, IsFormIn};

use crate::failure::Failure;
use crate::given::is_given;
use clap::ArgMatches;
use oci_types::{RepoName, Token};

/// What is listed of a repository.
#[derive(Clone, Copy)]
pub enum Held {
    /// Its tags, and the digests that they name.
    Tags,
    /// Its blobs, their lengths, and the manifests of it that name them.
    Blobs,
    /// Those of its blobs that none of its manifests names, which pruning takes away.
    Unnamed,
}

/// How much of a token a list shows.
#[derive(Clone, Copy)]
pub enum Shown {
    /// Its first four characters.
    Beginning,
    /// All of it.
    Whole,
}

/// What is listed.
pub enum Listing {
    /// The names of the repositories.
    Repos,
    /// What the repository of a name holds.
    InRepo {
        name: RepoName,
        what: Held,
    },
    /// The levels of tokens on repositories: on one or on all, of one token or of all.
    Grants {
        name: Option<RepoName>,
        token: Option<Token>,
        shown: Shown,
    },
}

// (written out, so that where one is dropped it is by a call)
impl Drop for Listing {
    fn drop(self) {
        match self {
            Listing::Repos => {}
            Listing::InRepo { name: _, what: _ } => {}
            Listing::Grants {
                name: _,
                token: _,
                shown: _,
            } => {}
        }
    }
}

/// How a list is written.
#[derive(Clone, Copy)]
pub enum Form {
    /// A line for each item.
    Lines,
    /// One JSON array of objects, on one line.
    Json,
}

/// How much of a token a subcommand asks for.
pub(crate) fn shown_in(matches: &ArgMatches) -> Shown
    ensures { IsShownIn (rows_of (found_of matches.now)) result }
{
    if is_given(matches, "show-tokens") {
        Shown::Whole
    } else {
        Shown::Beginning
    }
}

/// In which form it asks for a list.
pub(crate) fn form_in(matches: &ArgMatches) -> Form
    ensures { IsFormIn (rows_of (found_of matches.now)) result }
{
    if is_given(matches, "json") {
        Form::Json
    } else {
        Form::Lines
    }
}

/// What a subcommand lists of a repository.
pub(crate) fn held_in(word: &str, matches: &ArgMatches) -> Result<Held, Failure>
    ensures read { IfOk result (IsHeldIn word.now (rows_of (found_of matches.now))) }
    ensures refused { IfErr result IsOfWords }
{
    match word {
        "tags" => Ok(Held::Tags),
        "blobs" => Ok(Held::Blobs),
        "prune" if is_given(matches, "dry-run") => Ok(Held::Unnamed),
        _ => Err(Failure::InvalidOptions),
    }
}
