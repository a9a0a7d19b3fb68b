//! The second line on standard error: a place, and what is wrong there.
ghost use Rattle.std.specs.Prelude.{◌≡◌, ◌++◌, Option, OnOk, codes};
ghost use Rattle.std.specs.Io.KnownBytes.{Appends};
ghost use Rattle.oci_types.specs.Text.{Text};
ghost use Rattle.registry_orders.specs.declared.cause.Cause.{Cause};
ghost use Rattle.registry_orders.specs.Failures.{status_of};
ghost use Rattle.registry_orders.specs.Causes.{words_of, line_of, line_if, lines_of, IsAtMostOneLine};
ghost use Rattle.registry_orders.specs.Outputs.{newline, AppendsPart};

use crate::failure::{Failure, write_line};
use crate::output::write_texts;
use std::io;
use std::io::Write;

/// What is wrong with a place: the path of a database or a socket, an address, or a subcommand.
#[derive(Clone, Copy)]
pub enum Cause {
    InUse,
    NoFolder,
    IsFolder,
    /// SQLite takes the path for something else.
    NoFileName,
    /// It is a link that leads nowhere, a device, or a file of several names.
    NoPlainFile,
    NoRightToRead,
    NoRightToWrite,
    ReadOnly,
    /// It is a file of another kind.
    NoDatabase,
    /// What another program left beside it has to be played back first.
    Journal,
    DiskFull,
    /// The database a database, but no registry's.
    NoRegistry,
    /// A registry keeps its contents beside its database, and there is no file of them.
    NoContents,
    ForeignContents,
    ShortContents,
    /// The database is an older copy than the file.
    NewerContents,
    /// A new registry is to have a file of contents where one is.
    ContentsThere,
    PortInUse,
    NoAddress,
    NoHost,
    /// No address of this machine.
    Elsewhere,
    NoRightToPort,
    /// The registry that is to be served is given twice, or not at all, or not as it is to be.
    RegistryOptions,
    /// The scheme by which clients log in is none.
    LoginOptions,
    /// How a new registry keeps contents is given without a database, or names no layout.
    LayoutOptions,
    /// A token is given twice, or not at all.
    TokenOptions,
    /// The place of an order is given twice, or not at all.
    PlaceOptions,
    NoFile,
    Unreadable,
    /// The first line that was read is no token.
    NoToken,
    /// Nobody listens at the path for orders.
    NoServer,
    /// A server that lives takes orders at the path.
    ServerThere,
    /// Something else than a socket is at the path.
    NoSocket,
}

impl Cause {
    /// What is said of it.
    pub fn words(self) -> &'static str
        ensures { result.now ≡ words_of self }
    {
        match self {
            Cause::InUse => {
                "in use by another process; a server that holds it takes orders by --orders"
            }
            Cause::NoFolder => "no such folder",
            Cause::IsFolder => "is a folder",
            Cause::NoFileName => "not the name of a file",
            Cause::NoPlainFile => "is a link, a device or a file of several names",
            Cause::NoRightToRead => "no right to read",
            Cause::NoRightToWrite => "no right to write",
            Cause::ReadOnly => "on a file system that is read-only",
            Cause::NoDatabase => "no database, but a file of another kind",
            Cause::Journal => "has a rollback journal beside it, which sqlite3 has to play back",
            Cause::DiskFull => "the disk is full",
            Cause::NoRegistry => "a database, but no registry's",
            Cause::NoContents => "its file of contents is not there, or is no file of contents",
            Cause::ForeignContents => "its file of contents belongs to another registry",
            Cause::ShortContents => "its file of contents is shorter than its rows say",
            Cause::NewerContents =>
                "its file of contents is newer than the database, an older copy",
            Cause::ContentsThere =>
                "a file of contents is there already, of another registry or of none",
            Cause::PortInUse => "port in use",
            Cause::NoAddress => "not an address",
            Cause::NoHost => "no address is known for this name",
            Cause::Elsewhere => "not an address of this machine",
            Cause::NoRightToPort => "no right to the port",
            Cause::RegistryOptions => {
                "wants --db PATH, or --memory with --repo NAME=QUOTA and --grant TOKEN=NAME=LEVEL"
            }
            Cause::LoginOptions => "wants --login http or --login https",
            Cause::LayoutOptions => "wants --layout tables or --layout beside, with --db PATH",
            Cause::TokenOptions => "wants one of --token TOKEN and --token-file PATH",
            Cause::PlaceOptions => "wants one of --db PATH and --orders PATH",
            Cause::NoFile => "no such file",
            Cause::Unreadable => "cannot be read",
            Cause::NoToken => "the first line is no token",
            Cause::NoServer => "no server takes orders here",
            Cause::ServerThere => "another server takes orders here",
            Cause::NoSocket => "is no socket",
        }
    }
}

/// Writes a place and what is wrong there, as a line.
fn write_reason<'a, E: Write>(err: &mut E, place: &'a str, words: &'a str) -> io::Result<()>
    ensures whole { OnOk result (Appends (E.contents err.old) (E.contents err.new)
        (codes "registry: " ++ place.now ++ codes ": " ++ words.now ++ newline)) }
    ensures part { AppendsPart (E.contents err.old) (E.contents err.new)
        (codes "registry: " ++ place.now ++ codes ": " ++ words.now ++ newline) }
{
    write_texts(err, &["registry: ", place, ": ", words, "\n"])
}

/// Says `registry: PLACE: CAUSE`. Nothing is said of a place that has a line's end in it. Where that fails, a
/// first part of the line was written.
pub fn explain<E: Write>(err: &mut E, place: &str, cause: Cause) -> io::Result<()>
    ensures whole { OnOk result (Appends (E.contents err.old) (E.contents err.new)
        (line_of place.now cause)) }
    ensures part { AppendsPart (E.contents err.old) (E.contents err.new) (line_of place.now cause) }
{
    if place.as_bytes().contains(&b'\n') {
        return Ok(());
    }
    write_reason(err, place, cause.words())
}

/// The same, where a cause is known.
fn explain_if<E: Write>(err: &mut E, place: &str, cause: Option<Cause>) -> io::Result<()>
    ensures whole { OnOk result (Appends (E.contents err.old) (E.contents err.new)
        (line_if place.now cause)) }
    ensures part { AppendsPart (E.contents err.old) (E.contents err.new) (line_if place.now cause) }
{
    match cause {
        Some(cause) => explain(err, place, cause),
        None => Ok(()),
    }
}

/// Says what failed, and on a line behind it, where that is known, what is wrong with a place. Where that
/// fails, a first part of these lines was written.
pub fn tell_at<E: Write>(
    err: &mut E,
    failure: Failure,
    place: &str,
    cause: Option<Cause>,
) -> io::Result<()>
    ensures whole { OnOk result (Appends (E.contents err.old) (E.contents err.new)
        (lines_of failure place.now cause)) }
    ensures part { AppendsPart (E.contents err.old) (E.contents err.new) (lines_of failure place.now cause) }
{
    match write_line(err, failure) {
        Ok(()) => explain_if(err, place, cause),
        Err(error) => Err(error),
    }
}

/// Says what failed, as `tell_at` does, and gives the exit status.
pub fn say_at<E: Write>(err: &mut E, failure: Failure, place: &str, cause: Option<Cause>) -> u8
    ensures status { result ≡ status_of failure }
    ensures said { AppendsPart (E.contents err.old) (E.contents err.new) (lines_of failure place.now cause) }
{
    let _ = tell_at(err, failure, place, cause);
    failure.status()
}

/// What stands behind the line of a failure is nothing, or one line.
pub fn a_cause_takes_one_line()
    ensures { (place : Text) (cause : Option Cause) → IsAtMostOneLine (line_if place cause) }
{}
