//! Where an order is carried out.
ghost use Rattle.std.specs.Prelude.{◌≡◌, IfOk, IfErr};
ghost use Rattle.clap.specs.Words.{found_of, rows_of};
ghost use Rattle.registry_orders.specs.Failures.{IsOfWords};
ghost use Rattle.registry_orders.specs.Places.{IsPlaceIn, IsPlaceless};

use crate::failure::Failure;
use crate::given::text_given;
use clap::ArgMatches;

/// Where an order is carried out.
#[derive(Clone, Copy)]
pub enum Place<'a> {
    /// Here, over the registry in the database at a path.
    Database(&'a str),
    /// By the server that takes orders at the socket at a path.
    Server(&'a str),
}

/// The place of an order, which is given by one of `--db` and `--orders`. The error is `InvalidOptions`:
/// both are given, or neither is.
pub fn place_given<'a>(matches: &ArgMatches<'a>) -> Result<Place<'a>, Failure>
    ensures found { IfOk result (IsPlaceIn (rows_of (found_of matches.now))) }
    ensures refused { IfErr result IsOfWords }
    ensures placeless { IfErr result (λ failure.
        (failure ≡ Failure.InvalidOptions) × IsPlaceless (rows_of (found_of matches.now))) }
{
    match (text_given(matches, "db"), text_given(matches, "orders")) {
        (Some(path), None) => Ok(Place::Database(path)),
        (None, Some(path)) => Ok(Place::Server(path)),
        _ => Err(Failure::InvalidOptions),
    }
}
