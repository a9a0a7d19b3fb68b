ghost use Rattle.std.specs.Prelude.{◌≡◌};
ghost use Rattle.registry_maps.specs.Maps.{or_memory};

use oci_types::Fault;
use std::alloc::AllocError;

/// The only fault is want of memory.
pub fn or_memory<T>(made: Result<T, AllocError>) -> Result<T, Fault>
    ensures { result ≡ or_memory made }
{
    match made {
        Ok(value) => Ok(value),
        Err(_) => Err(Fault::Memory),
    }
}
