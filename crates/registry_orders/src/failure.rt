ghost use Rattle.std.specs.Prelude.{◌≡◌, ◌++◌, MatchResult, OnOk};
ghost use Rattle.std.specs.Io.KnownBytes.{Appends};
ghost use Rattle.registry_orders.specs.Failures.{status_of, text_of, failure_of, failure_of_text};
ghost use Rattle.registry_orders.specs.Outputs.{newline, AppendsPart};

use crate::output::write_texts;
use itoa::Buffer;
use oci_types::NameFault;
use registry_model::AdminFault;
use std::alloc::AllocError;
use std::io::Write;
use std::{fmt, io};

/// Why the program ends with another status than 0.
#[derive(Clone, Copy)]
pub enum Failure {
    NoRepo,
    NoGrant,
    RepoThere,
    InvalidName,
    InvalidToken,
    InvalidOptions,
    OutOfMemory,
    StorageFailure,
    /// The database has this schema, which is another than the one that is read.
    Schema(i64),
    NotARegistry,
    /// Something is wrong in a registry, which was said on standard output.
    Damaged,
    ConnectionFailure,
}

impl Failure {
    /// The exit status: 1 a refused command, 2 the command line, 3 storage, schema, memory or damage, 4 a
    /// socket, reading or writing.
    pub fn status(self) -> u8
        ensures { result ≡ status_of self }
    {
        match self {
            Failure::NoRepo => 1,
            Failure::NoGrant => 1,
            Failure::RepoThere => 1,
            Failure::InvalidName => 2,
            Failure::InvalidToken => 2,
            Failure::InvalidOptions => 2,
            Failure::OutOfMemory => 3,
            Failure::StorageFailure => 3,
            Failure::Schema(_) => 3,
            Failure::NotARegistry => 3,
            Failure::Damaged => 3,
            Failure::ConnectionFailure => 4,
        }
    }

    /// What is said of it; of a schema, its number.
    fn words(self) -> Result<&'static str, i64>
        ensures { MatchResult result (λ words. words.now ≡ text_of self)
            (λ found. self ≡ Failure.Schema found) }
    {
        match self {
            Failure::NoRepo => Ok("registry: no such repository"),
            Failure::NoGrant => Ok("registry: no such grant"),
            Failure::RepoThere => Ok("registry: repository already there"),
            Failure::InvalidName => Ok("registry: invalid name"),
            Failure::InvalidToken => Ok("registry: invalid token"),
            Failure::InvalidOptions => Ok("registry: invalid options"),
            Failure::OutOfMemory => Ok("registry: out of memory"),
            Failure::StorageFailure => Ok("registry: storage failure"),
            Failure::Schema(found) => Err(found),
            Failure::NotARegistry => Ok("registry: not a registry"),
            Failure::Damaged => Ok("registry: damaged"),
            Failure::ConnectionFailure => Ok("registry: connection failure"),
        }
    }
}

/// What is said of it on standard error.
impl fmt::Display for Failure {
    ghost use Rattle.std.specs.Prelude.{Some};
    ghost use Rattle.registry_orders.specs.Failures.{text_of};

    ghost output = { λ failure. Some (text_of failure) };

    fn fmt<W: fmt::Write>(&self, f: &mut fmt::Formatter<W>) -> fmt::Result {
        match self.words() {
            Ok(words) => f.write_str(words),
            Err(found) => write!(f, "registry: schema {found} is not supported"),
        }
    }
}

impl From<AllocError> for Failure {
    ghost use Rattle.std.specs.Prelude.{◌≡◌};
    ghost use Rattle.registry_orders.specs.declared.failure.Failure.{Failure};

    ghost from_gives = { λ _ failure. failure ≡ Failure.OutOfMemory };

    fn from(_: AllocError) -> Failure {
        Failure::OutOfMemory
    }
}

impl<T: Drop> From<std::alloc::AllocFailed<T>> for Failure {
    ghost use Rattle.std.specs.Prelude.{◌≡◌};
    ghost use Rattle.registry_orders.specs.declared.failure.Failure.{Failure};

    ghost from_gives = { λ _ failure. failure ≡ Failure.OutOfMemory };

    fn from(_: std::alloc::AllocFailed<T>) -> Failure {
        Failure::OutOfMemory
    }
}

/// Writes what is said of a failure, as a line. No memory is taken for it, since it may be want of memory.
pub(crate) fn write_line<E: Write>(err: &mut E, failure: Failure) -> io::Result<()>
    ensures whole { OnOk result (Appends (E.contents err.old) (E.contents err.new)
        (text_of failure ++ newline)) }
    ensures part { AppendsPart (E.contents err.old) (E.contents err.new) (text_of failure ++ newline) }
{
    match failure.words() {
        Ok(words) => write_texts(err, &[words, "\n"]),
        Err(found) => {
            let mut digits = Buffer::new();
            let found = digits.format(found);
            write_texts(err, &["registry: schema ", found, " is not supported\n"])
        }
    }
}

/// Says why on standard error, and gives the exit status. Where standard error takes not the whole line, a
/// first part of it was written.
pub fn say<E: Write>(err: &mut E, failure: Failure) -> u8
    ensures status { result ≡ status_of failure }
    ensures said { AppendsPart (E.contents err.old) (E.contents err.new) (text_of failure ++ newline) }
{
    let _ = write_line(err, failure);
    failure.status()
}

/// Why a command was not carried out.
pub fn of_command(fault: AdminFault) -> Failure
    ensures { result ≡ failure_of fault }
{
    match fault {
        AdminFault::NoRepo => Failure::NoRepo,
        AdminFault::NoGrant => Failure::NoGrant,
        AdminFault::RepoThere => Failure::RepoThere,
        AdminFault::Memory => Failure::OutOfMemory,
        AdminFault::Storage => Failure::StorageFailure,
    }
}

/// Why a text is no name or no token, or that memory is wanting.
pub fn of_text(fault: NameFault, kind: Failure) -> Failure
    ensures { result ≡ failure_of_text fault kind }
{
    match fault {
        NameFault::Memory => Failure::OutOfMemory,
        _ => kind,
    }
}
