//! How much the connections of an address may take together.
ghost use Rattle.std.specs.Prelude.{IfOk, IfErr};
ghost use Rattle.clap.specs.Words.{found_of, rows_of};
ghost use Rattle.registry_orders.specs.Failures.{IsOfWords};
ghost use Rattle.registry_orders.specs.Limits.{AreLimitsIn};

use crate::failure::Failure;
use crate::given::{number_given, number_if};
use clap::ArgMatches;

/// How much connections that are served together may take.
#[derive(Clone, Copy)]
pub struct Limits {
    /// How many there may be at once.
    pub at_once: u64,
    /// About how many bytes of requests and of replies may be in hand, of all of them together.
    pub buffer: u64,
    /// How many bytes of uploads may be staged together; without it, half of the buffer.
    pub staged: Option<u64>,
    /// The seconds after which one is closed that says nothing and takes nothing.
    pub idle: u64,
}

/// The limits that were given.
pub(crate) fn limits_given(matches: &ArgMatches) -> Result<Limits, Failure>
    ensures found { IfOk result (AreLimitsIn (rows_of (found_of matches.now))) }
    ensures refused { IfErr result IsOfWords }
{
    Ok(Limits {
        at_once: number_given(matches, "at-once")?,
        buffer: number_given(matches, "buffer")?,
        staged: number_if(matches, "staged")?,
        idle: number_given(matches, "idle")?,
    })
}
