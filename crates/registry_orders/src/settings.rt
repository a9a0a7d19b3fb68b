//! What an operator chooses of how requests are answered.
ghost use Rattle.std.specs.Prelude.{◌≡◌, IfOk, IfErr, IfSome, codes};
ghost use Rattle.clap.specs.Words.{found_of, rows_of, first_of};
ghost use Rattle.registry_model.specs.Login.{scheme_text};
ghost use Rattle.registry_orders.specs.Failures.{IsOfWords};
ghost use Rattle.registry_orders.specs.Settings.{IsLoginOf, AreSettingsIn};

use crate::failure::Failure;
use crate::given::{is_given, text_given};
use clap::ArgMatches;
use registry_model::{Scheme, Settings};

/// The scheme that a text names.
fn scheme_named(text: &str) -> Option<Scheme>
    ensures { IfSome result (λ scheme. text.now ≡ scheme_text scheme) }
{
    match text {
        "http" => Some(Scheme::Http),
        "https" => Some(Scheme::Https),
        _ => None,
    }
}

/// The scheme by which clients log in, where that is given.
fn login_given(matches: &ArgMatches) -> Result<Option<Scheme>, Failure>
    ensures found { IfOk result (IsLoginOf (first_of (codes "login") (rows_of (found_of matches.now)))) }
    ensures refused { IfErr result IsOfWords }
{
    let Some(text) = text_given(matches, "login") else {
        return Ok(None);
    };
    match scheme_named(text) {
        Some(scheme) => Ok(Some(scheme)),
        None => Err(Failure::InvalidOptions),
    }
}

/// The settings that were given; without the options the profile's.
pub(crate) fn settings_given(matches: &ArgMatches) -> Result<Settings, Failure>
    ensures found { IfOk result (AreSettingsIn (rows_of (found_of matches.now))) }
    ensures refused { IfErr result IsOfWords }
{
    Ok(Settings {
        login: login_given(matches)?,
        health: is_given(matches, "health"),
    })
}
