//! How a new registry keeps its contents.
ghost use Rattle.std.specs.Prelude.{◌≡◌, IfOk, IfErr, MatchResult};
ghost use Rattle.clap.specs.Words.{found_of, rows_of};
ghost use Rattle.registry_orders.specs.Failures.{IsOfWords};
ghost use Rattle.registry_orders.specs.Layouts.{layout_text, NamesNoLayout, IsLayoutIn, IsUnfitLayout};

use crate::failure::Failure;
use crate::given::text_given;
use clap::ArgMatches;

/// How a new registry keeps its contents. One that is there is opened as what it is.
#[derive(Clone, Copy)]
pub enum Layout {
    /// In tables of its database.
    Tables,
    /// In one file beside its database.
    Beside,
}

/// The layout that a text names. The error is `InvalidOptions`: it names none.
fn layout_named(text: &str) -> Result<Layout, Failure>
    ensures named { IfOk result (λ layout. text.now ≡ layout_text layout) }
    ensures other { IfErr result (λ failure.
        (failure ≡ Failure.InvalidOptions) × NamesNoLayout text.now) }
{
    match text {
        "tables" => Ok(Layout::Tables),
        "beside" => Ok(Layout::Beside),
        _ => Err(Failure::InvalidOptions),
    }
}

/// How a new registry is to keep its contents; without the option in tables. The error is `InvalidOptions`:
/// the option's text names no layout, or `--db` is not given.
pub(crate) fn layout_given(matches: &ArgMatches) -> Result<Layout, Failure>
    ensures found { IfOk result (IsLayoutIn (rows_of (found_of matches.now))) }
    ensures refused { IfErr result IsOfWords }
    ensures unfit { IfErr result (λ failure.
        (failure ≡ Failure.InvalidOptions) × IsUnfitLayout (rows_of (found_of matches.now))) }
{
    match (text_given(matches, "layout"), text_given(matches, "db")) {
        (None, _) => Ok(Layout::Tables),
        (Some(text), Some(_)) => layout_named(text),
        (Some(_), None) => Err(Failure::InvalidOptions),
    }
}
