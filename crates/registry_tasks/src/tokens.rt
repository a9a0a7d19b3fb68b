//! Orders whose token is read from a file or from standard input.
ghost use Rattle.std.specs.Prelude.{◌≡◌, ◌≢◌, ◌<◌, ◌≤◌, ◌⊎◌, IfOk, IfErr};
ghost use Rattle.registry_opening.specs.Openings.{between};
ghost use Rattle.registry_orders.specs.Failures.{IsOfWords};
ghost use Rattle.registry_orders.specs.Outputs.{IsSilent, output};
ghost use Rattle.registry_tasks.specs.Acts.{acts};
ghost use Rattle.registry_tasks.specs.Program.{streams};
ghost use Rattle.registry_tasks.specs.Opened.{GivesToken, IsReadFor, place_of, RunsTokenOrder, LacksTokenOf};

use crate::messenger::Messenger;
use crate::opened::run_order_at;
use oci_types::Token;
use registry_model::Keeper;
use registry_opening::Opener;
use registry_orders::cause::say_at;
use registry_orders::{Cause, Failure, Layout, Place, TokenOrder, TokenSource, read_token};
use std::alloc::Global;
use std::fs;
use std::io::{ErrorKind, Read, Write};

/// Why there is no token, and where it was looked for.
#[derive(Clone, Copy)]
struct NoToken<'a> {
    failure: Failure,
    place: &'a str,
    cause: Option<Cause>,
}

/// Why what was read at a place is no token.
fn no_token(failure: Failure, place: &str) -> NoToken<'_>
    ensures failure { result.failure ≡ failure }
    ensures place { result.place.now ≡ place.now }
{
    let cause = match failure {
        Failure::InvalidToken => Some(Cause::NoToken),
        Failure::InvalidOptions => Some(Cause::Unreadable),
        _ => None,
    };
    NoToken {
        failure,
        place,
        cause,
    }
}

fn cause_of_file(kind: ErrorKind) -> Cause {
    match kind {
        ErrorKind::NotFound | ErrorKind::NotADirectory => Cause::NoFile,
        ErrorKind::PermissionDenied => Cause::NoRightToRead,
        _ => Cause::Unreadable,
    }
}

/// The token that is the first line of the file at a path.
fn token_in_file<'a>(rt: &HostRuntime, alloc: Global, path: &'a str) -> Result<Token, NoToken<'a>>
    ensures refused { IfErr result (λ none. IsOfWords none.failure) }
    ensures placed { IfErr result (λ none. none.place.now ≡ path.now) }
{
    let mut file = match fs::open(rt, path) {
        Ok(file) => file,
        Err(error) => {
            return Err(NoToken {
                failure: Failure::InvalidOptions,
                place: path,
                cause: Some(cause_of_file(error.kind())),
            });
        }
    };
    match read_token(alloc, &mut file) {
        Ok(token) => Ok(token),
        Err(failure) => Err(no_token(failure, path)),
    }
}

/// The token that is the first line of what a source names.
fn token_of<'a, R: Read>(
    rt: &HostRuntime,
    alloc: Global,
    source: TokenSource<'a>,
    reader: &mut R,
) -> Result<Token, NoToken<'a>>
    ensures given { IfOk result (GivesToken source.entry (R.remaining reader.old) (R.remaining reader.new)) }
    ensures refused { IfErr result (λ none. IsOfWords none.failure) }
    ensures spared { IsReadFor source.entry (R.remaining reader.old) (R.remaining reader.new) }
    ensures placed { IfErr result (λ none. none.place.now ≡ place_of source.entry) }
{
    match source {
        TokenSource::Input => match read_token(alloc, reader) {
            Ok(token) => Ok(token),
            Err(failure) => Err(no_token(failure, "standard input")),
        },
        TokenSource::File(path) => token_in_file(rt, alloc, path),
    }
}

/// Reads the token that an order lacks, and carries the order out at its place. Without a token no registry
/// is opened, and nothing is sent.
pub fn run_token_order<K: Keeper, O: Opener<K>, M: Messenger, R: Read, W: Write, E: Write>(
    rt: &HostRuntime,
    alloc: Global,
    opener: &mut O,
    messenger: &mut M,
    place: Place,
    layout: Layout,
    source: TokenSource,
    order: TokenOrder,
    reader: &mut R,
    out: &mut W,
    err: &mut E,
) -> u8
    ensures runs { ((result ≢ 2)
        × RunsTokenOrder (acts (between K.is_honest K.kept O.opens (O.had opener.old) (O.had opener.new))
        (M.had messenger.old) (M.had messenger.new))
        place.entry source.entry order result (streams (R.remaining reader.old) (R.remaining reader.new)
        (W.contents out.old) (W.contents out.new)) (output (E.contents err.old) (E.contents err.new)))
        ⊎ LacksTokenOf (acts (between K.is_honest K.kept O.opens (O.had opener.old) (O.had opener.new))
        (M.had messenger.old) (M.had messenger.new))
        source.entry result (streams (R.remaining reader.old) (R.remaining reader.new)
        (W.contents out.old) (W.contents out.new)) (output (E.contents err.old) (E.contents err.new)) }
    ensures silent { 0 < result → result < 4
        → IsSilent (output (W.contents out.old) (W.contents out.new)) }
    ensures status { result ≤ 4 }
{
    match token_of(rt, alloc, source, reader) {
        Ok(token) => run_order_at(
            alloc,
            opener,
            messenger,
            place,
            layout,
            &order.with(token),
            out,
            err,
        ),
        Err(none) => say_at(err, none.failure, none.place, none.cause),
    }
}
