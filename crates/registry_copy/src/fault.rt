//! Why a registry is not copied.
ghost use Rattle.std.specs.Prelude.{◌≡◌};
ghost use Rattle.registry_copy.specs.Faults.{of_source, of_target};

use oci_types::Fault;

/// Why a registry is not copied.
#[derive(Clone, Copy)]
pub enum CopyFault {
    /// Want of memory.
    Memory,
    /// The storage of the registry that is copied failed.
    Source,
    /// The storage of the copy failed.
    Target,
    /// The registry that is copied has something that no push makes: bytes of another digest, or more than a
    /// content may have; a manifest that reads as none; a tag of no manifest; a number past the largest.
    Damaged,
    /// A repository of the same name was in the registry into which it was copied.
    Occupied,
}

/// What a call of the keeper that is copied came to.
pub(crate) fn of_source<T>(answer: Result<T, Fault>) -> Result<T, CopyFault>
    ensures { result ≡ of_source answer }
{
    match answer {
        Ok(told) => Ok(told),
        Err(Fault::Memory) => Err(CopyFault::Memory),
        Err(Fault::Storage) => Err(CopyFault::Source),
    }
}

/// What a call of the keeper of the copy came to.
pub(crate) fn of_target<T>(answer: Result<T, Fault>) -> Result<T, CopyFault>
    ensures { result ≡ of_target answer }
{
    match answer {
        Ok(told) => Ok(told),
        Err(Fault::Memory) => Err(CopyFault::Memory),
        Err(Fault::Storage) => Err(CopyFault::Target),
    }
}
