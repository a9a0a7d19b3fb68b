ghost use Rattle.std.specs.Prelude.{◌≡◌, Ok, Err, IfOk, IsOk, MatchResult, OnOk};
ghost use Rattle.store_contents.specs.Search.{fault_by};

use oci_types::Fault;
use sqlite::{Error, ErrorCode};

/// What an error of the database is to a caller: want of memory is told apart from all others.
pub fn fault_of(error: Error) -> Fault
    ensures { result ≡ fault_by error }
{
    match error {
        Error::SqliteFailure(ErrorCode::OutOfMemory) => Fault::Memory,
        _ => Fault::Storage,
    }
}

/// Whether it was done, without how many rows that were, or what the error is to a caller.
pub fn done(ran: Result<usize, Error>) -> Result<(), Fault>
    ensures exact { MatchResult ran (λ _. result ≡ Ok tt) (λ error. result ≡ Err (fault_by error)) }
    ensures ok { OnOk result (IsOk ran) }
{
    match ran {
        Ok(_) => Ok(()),
        Err(error) => Err(fault_of(error)),
    }
}

/// The value, or what the error is to a caller.
pub fn told<T>(found: Result<T, Error>) -> Result<T, Fault>
    ensures exact { MatchResult found (λ value. result ≡ Ok value) (λ error. result ≡ Err (fault_by error)) }
    ensures ok { IfOk result (λ value. found ≡ Ok value) }
{
    match found {
        Ok(value) => Ok(value),
        Err(error) => Err(fault_of(error)),
    }
}
