//! Bytes that several may hold at once.
ghost use Rattle.std.specs.Prelude.{◌≡◌, IfOk};
ghost use Rattle.registry_model.specs.Keeping.{bytes_in, shared_in};

use std::alloc::{AllocError, Global};
use std::rc::Rc;

/// Bytes, if there are any, so that several may hold them.
pub fn share(alloc: Global, bytes: Option<Vec<u8>>) -> Result<Option<Rc<Vec<u8>>>, AllocError>
    ensures { IfOk result (λ shared. shared_in shared ≡ bytes_in bytes) }
{
    match bytes {
        Some(bytes) => Ok(Some(Rc::new(alloc, bytes)?)),
        None => Ok(None),
    }
}
