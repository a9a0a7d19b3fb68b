//! Tokens that are not on the command line, but in a file or on standard input.
ghost use Rattle.std.specs.Prelude.{◌≡◌, ◌||◌, IfOk, IfErr, OnErr, IfSome, codes, is_some};
ghost use Rattle.std.specs.Io.KnownBytes.{Keeps};
ghost use Rattle.clap.specs.Words.{found_of, rows_of, first_of};
ghost use Rattle.registry_orders.specs.Failures.{IsOfWords};
ghost use Rattle.registry_orders.specs.Tokens.{IsTokenFrom, IsNextByte, IsFirstLine, ReadsWithinLine};

use crate::failure::Failure;
use crate::given::text_given;
use crate::options::token_of;
use clap::ArgMatches;
use oci_types::Token;
use std::alloc::Global;
use std::io::Read;

/// The most bytes that are read for a token: those of the longest one, and a line's end.
const MOST_BYTES: u32 = 201;

/// Where a token is read that is not on the command line.
#[derive(Clone, Copy)]
pub enum TokenSource<'a> {
    /// On standard input.
    Input,
    /// In the file at a path.
    File(&'a str),
}

/// Whether a token is given, or where one is read.
pub(crate) fn is_token_given(matches: &ArgMatches) -> bool
    ensures { result ≡ (is_some (first_of (codes "token") (rows_of (found_of matches.now)))
        || is_some (first_of (codes "token-file") (rows_of (found_of matches.now)))) }
{
    text_given(matches, "token").is_some() || text_given(matches, "token-file").is_some()
}

/// Where an order's token is read; none where it is on the command line. The error is that it is given
/// twice, or not at all.
pub fn token_source<'a>(matches: &ArgMatches<'a>) -> Result<Option<TokenSource<'a>>, Failure>
    ensures found { IfOk result (λ source. IfSome source (IsTokenFrom (rows_of (found_of matches.now)))) }
    ensures refused { IfErr result IsOfWords }
{
    match (
        text_given(matches, "token"),
        text_given(matches, "token-file"),
    ) {
        (None, Some(path)) => Ok(Some(TokenSource::File(path))),
        (Some("-"), None) => Ok(Some(TokenSource::Input)),
        (Some(_), None) => Ok(None),
        _ => Err(Failure::InvalidOptions),
    }
}

/// The next byte that a reader gives; none at its end.
fn next_byte<R: Read>(reader: &mut R) -> Result<Option<u8>, Failure>
    ensures given { IfOk result (IsNextByte (R.remaining reader.old) (R.remaining reader.new)) }
    ensures refused { IfErr result IsOfWords }
    ensures spared { OnErr result (Keeps (R.remaining reader.old) (R.remaining reader.new)) }
{
    let mut byte = [0];
    match reader.read(&mut byte) {
        Ok(0) => Ok(None),
        Ok(_) => Ok(Some(byte[0])),
        Err(_) => Err(Failure::InvalidOptions),
    }
}

/// The first line that a reader gives, without its end; `InvalidToken` where it is longer than a token.
fn first_line<R: Read>(alloc: Global, reader: &mut R) -> Result<Vec<u8>, Failure>
    ensures given { IfOk result (λ line.
        IsFirstLine (R.remaining reader.old) (R.remaining reader.new) line.items) }
    ensures refused { IfErr result IsOfWords }
    ensures within { ReadsWithinLine (R.remaining reader.old) (R.remaining reader.new) }
{
    let mut line = Vec::new(alloc);
    for _ in 0..MOST_BYTES {
        match next_byte(reader)? {
            None => return Ok(line),
            Some(b'\n') => return Ok(line),
            Some(byte) => line.push(byte)?,
        }
    }
    Err(Failure::InvalidToken)
}

/// The token that is the first line of what a reader gives, without the line's end. No more is read than
/// that line, and of a longer one than a token's no more than 201 bytes. `InvalidToken` where the line is no
/// token; `InvalidOptions` where reading fails.
pub fn read_token<R: Read>(alloc: Global, reader: &mut R) -> Result<Token, Failure>
    ensures read { IfOk result (IsFirstLine (R.remaining reader.old) (R.remaining reader.new)) }
    ensures refused { IfErr result IsOfWords }
    ensures within { ReadsWithinLine (R.remaining reader.old) (R.remaining reader.new) }
{
    let line = first_line(alloc, reader)?;
    match str::from_utf8(line.as_slice()) {
        Ok(text) => token_of(alloc, text),
        Err(_) => Err(Failure::InvalidToken),
    }
}
