//! The digests under which a repository holds something.
ghost use Rattle.std.specs.Prelude.{◌≡◌, IfOk};
ghost use Rattle.std.specs.BTreeMap.{keys, IsOrdered};
ghost use Rattle.registry_model.specs.World.{text_cmp};

use crate::putting::push;
use oci_types::Digest;
use std::alloc::{AllocError, Global};
use std::collections::BTreeMap;

/// Copies of the digests under which something is held, in byte order.
pub(super) fn digests_of<V>(
    alloc: Global,
    held: &BTreeMap<Digest, V>,
) -> Result<Vec<Digest>, AllocError>
    ensures found { IfOk result (λ found. found.items ≡ keys held.now) }
    ensures ordered { IsOrdered text_cmp held.now }
{
    let mut found = Vec::new(alloc);
    for digest in held.keys() {
        push(&mut found, digest.clone())?;
    }
    Ok(found)
}
