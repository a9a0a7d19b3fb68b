//! Whether the bytes came that a write was handed.
ghost use Rattle.std.specs.Prelude.{◌≡◌, true, false, Ok, Err, MatchResult};

use oci_types::Fault;

/// The answer to a write that was handed no bytes: none came.
pub(crate) fn none_came(made: Result<(), Fault>) -> Result<bool, Fault>
    ensures { MatchResult made (λ _. result ≡ Ok false) (λ fault. result ≡ Err fault) }
{
    match made {
        Ok(()) => Ok(false),
        Err(fault) => Err(fault),
    }
}

/// The answer to a write whose bytes always come.
pub(crate) fn all_came(made: Result<(), Fault>) -> Result<bool, Fault>
    ensures { MatchResult made (λ _. result ≡ Ok true) (λ fault. result ≡ Err fault) }
{
    match made {
        Ok(()) => Ok(true),
        Err(fault) => Err(fault),
    }
}
