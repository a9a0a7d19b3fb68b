//! What a server does beside serving.
ghost use Rattle.clap.specs.Words.{found_of, rows_of};
ghost use Rattle.registry_orders.specs.Tasks.{IsBesideIn};

use crate::given::{is_given, text_given};
use clap::ArgMatches;

/// What a server does beside serving.
#[derive(Clone, Copy)]
pub struct Beside<'a> {
    /// The socket at which it takes orders.
    pub orders: Option<&'a str>,
    /// Whether it says each request on standard error.
    pub log: bool,
    /// Whether it ends when nobody holds the other end of standard input any more.
    pub stop_at_eof: bool,
}

/// What a server does beside serving, as it was given.
pub(crate) fn beside_given<'a>(matches: &ArgMatches<'a>) -> Beside<'a>
    ensures { IsBesideIn (rows_of (found_of matches.now)) result }
{
    Beside {
        orders: text_given(matches, "orders"),
        log: is_given(matches, "log"),
        stop_at_eof: is_given(matches, "stop-at-eof"),
    }
}
