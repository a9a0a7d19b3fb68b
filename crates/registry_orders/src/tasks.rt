//! What the words of a command line ask for.
ghost use Rattle.std.specs.Prelude.{IfErr, IfOk, codes};
ghost use Rattle.clap.specs.Words.{found_of, rows_of};
ghost use Rattle.registry_orders.specs.Failures.{IsOfWords};
ghost use Rattle.registry_orders.specs.Tasks.{IsTaskIn};

use crate::beside::{Beside, beside_given};
use crate::failure::Failure;
use crate::given::{number_given, text_given};
use crate::layout::{Layout, layout_given};
use crate::limits::{Limits, limits_given};
use crate::options::Setup;
use crate::orders::{Order, TokenOrder, read_order, read_token_order};
use crate::place::{Place, place_given};
use crate::served::{Served, served_given};
use crate::settings::settings_given;
use crate::tokens::{TokenSource, is_token_given, token_source};
use clap::ArgMatches;
use registry_model::Settings;
use std::alloc::Global;

/// What there is to do.
#[derive(Drop)]
pub enum Task<'a> {
    /// Serve standard input over a registry in memory, with these settings.
    Memory {
        setup: Setup,
        settings: Settings,
    },
    /// Serve standard input over the registry at a path, with these settings. One that is not there is made,
    /// here and below, with this layout.
    Stored {
        path: &'a str,
        layout: Layout,
        settings: Settings,
    },
    /// Serve an address over a registry, so many connections, within these limits.
    Server {
        served: Served<'a>,
        layout: Layout,
        address: &'a str,
        connections: u64,
        limits: Limits,
        beside: Beside<'a>,
        settings: Settings,
    },
    /// Carry out an order, here or by a server.
    Order {
        place: Place<'a>,
        layout: Layout,
        order: Order,
    },
    /// Carry out an order with a token that is read elsewhere, here or by a server.
    TokenOrder {
        place: Place<'a>,
        layout: Layout,
        source: TokenSource<'a>,
        order: TokenOrder,
    },
    /// Look for what is wrong in the registry at a path.
    Check {
        path: &'a str,
    },
    /// Take over the registry of schema 1 at a path.
    Migration {
        path: &'a str,
    },
    /// End the server that takes orders at the socket at a path.
    Stop {
        path: &'a str,
    },
}

/// What `registry stdio` is to serve, and how.
fn stdio_task<'a>(alloc: Global, matches: &ArgMatches<'a>) -> Result<Task<'a>, Failure>
    ensures read { IfOk result (IsTaskIn (codes "stdio") (rows_of (found_of matches.now))) }
    ensures refused { IfErr result IsOfWords }
{
    let settings = settings_given(matches)?;
    let layout = layout_given(matches)?;
    match served_given(alloc, matches)? {
        Served::Memory(setup) => Ok(Task::Memory { setup, settings }),
        Served::Stored(path) => Ok(Task::Stored {
            path,
            layout,
            settings,
        }),
    }
}

/// What `registry serve` is to serve, and how.
fn serve_task<'a>(alloc: Global, matches: &ArgMatches<'a>) -> Result<Task<'a>, Failure>
    ensures read { IfOk result (IsTaskIn (codes "serve") (rows_of (found_of matches.now))) }
    ensures refused { IfErr result IsOfWords }
{
    let Some(address) = text_given(matches, "listen") else {
        return Err(Failure::InvalidOptions);
    };
    let connections = number_given(matches, "connections")?;
    let limits = limits_given(matches)?;
    let beside = beside_given(matches);
    let settings = settings_given(matches)?;
    let layout = layout_given(matches)?;
    let served = served_given(alloc, matches)?;
    Ok(Task::Server {
        served,
        layout,
        address,
        connections,
        limits,
        beside,
        settings,
    })
}

fn order_task<'a>(alloc: Global, word: &str, matches: &ArgMatches<'a>) -> Result<Task<'a>, Failure>
    ensures read { IfOk result (IsTaskIn word.now (rows_of (found_of matches.now))) }
    ensures refused { IfErr result IsOfWords }
{
    let place = place_given(matches)?;
    let layout = layout_given(matches)?;
    let order = read_order(alloc, word, matches)?;
    Ok(Task::Order {
        place,
        layout,
        order,
    })
}

/// An order with a token, which is on the command line or is read elsewhere.
fn token_task<'a>(alloc: Global, word: &str, matches: &ArgMatches<'a>) -> Result<Task<'a>, Failure>
    ensures read { IfOk result (IsTaskIn word.now (rows_of (found_of matches.now))) }
    ensures refused { IfErr result IsOfWords }
{
    let Some(source) = token_source(matches)? else {
        return order_task(alloc, word, matches);
    };
    let place = place_given(matches)?;
    let layout = layout_given(matches)?;
    let order = read_token_order(alloc, word, matches)?;
    Ok(Task::TokenOrder {
        place,
        layout,
        source,
        order,
    })
}

/// The task of a subcommand over a database that no server holds.
fn database_task<'a>(word: &str, matches: &ArgMatches<'a>) -> Result<Task<'a>, Failure>
    ensures read { IfOk result (IsTaskIn word.now (rows_of (found_of matches.now))) }
    ensures refused { IfErr result IsOfWords }
{
    let Some(path) = text_given(matches, "db") else {
        return Err(Failure::InvalidOptions);
    };
    match word {
        "check" => Ok(Task::Check { path }),
        "migrate" => Ok(Task::Migration { path }),
        _ => Err(Failure::InvalidOptions),
    }
}

fn stop_task<'a>(matches: &ArgMatches<'a>) -> Result<Task<'a>, Failure>
    ensures read { IfOk result (IsTaskIn (codes "stop") (rows_of (found_of matches.now))) }
    ensures refused { IfErr result IsOfWords }
{
    match text_given(matches, "orders") {
        Some(path) => Ok(Task::Stop { path }),
        None => Err(Failure::InvalidOptions),
    }
}

/// The task of a subcommand, by its word and its options.
pub(crate) fn task_of<'a>(
    alloc: Global,
    word: &str,
    matches: &ArgMatches<'a>,
) -> Result<Task<'a>, Failure>
    ensures read { IfOk result (IsTaskIn word.now (rows_of (found_of matches.now))) }
    ensures refused { IfErr result IsOfWords }
{
    match word {
        "stdio" => stdio_task(alloc, matches),
        "serve" => serve_task(alloc, matches),
        "check" | "migrate" => database_task(word, matches),
        "stop" => stop_task(matches),
        "grant" | "revoke" => token_task(alloc, word, matches),
        // without a token, the levels of all are listed
        "grants" if is_token_given(matches) => token_task(alloc, word, matches),
        _ => order_task(alloc, word, matches),
    }
}
