//! The registry that connections are served over.
ghost use Rattle.std.specs.Prelude.{IfErr, IfOk};
ghost use Rattle.clap.specs.Words.{found_of, rows_of};
ghost use Rattle.registry_orders.specs.Failures.{IsOfWords};
ghost use Rattle.registry_orders.specs.Served.{IsServedIn};

use crate::failure::Failure;
use crate::given::{is_given, text_given, texts_given};
use crate::options::Setup;
use clap::ArgMatches;
use std::alloc::Global;

/// The registry that connections are served over.
#[derive(Drop)]
pub enum Served<'a> {
    /// One in memory, which begins with this setup and is gone afterwards.
    Memory(Setup),
    /// That in the database at a path.
    Stored(&'a str),
}

/// The registry that is to be served: a database, or one in memory, which alone is set up here.
pub(crate) fn served_given<'a>(
    alloc: Global,
    matches: &ArgMatches<'a>,
) -> Result<Served<'a>, Failure>
    ensures found { IfOk result (IsServedIn (rows_of (found_of matches.now))) }
    ensures refused { IfErr result IsOfWords }
{
    let repos = texts_given(matches, "repo").unwrap_or(&[]);
    let grants = texts_given(matches, "grant").unwrap_or(&[]);
    let memory = is_given(matches, "memory");
    match text_given(matches, "db") {
        Some(path) if !memory && repos.is_empty() && grants.is_empty() => Ok(Served::Stored(path)),
        None if memory => Ok(Served::Memory(Setup::read(alloc, repos, grants)?)),
        _ => Err(Failure::InvalidOptions),
    }
}
