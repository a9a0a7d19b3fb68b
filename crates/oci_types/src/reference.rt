//! References to manifests.
ghost use Rattle.oci_types.specs.Reading.{ReadsWordBy};

use crate::{Digest, NameFault, Tag};
use std::alloc::Global;

/// What names a manifest of a repository (OCI Distribution Specification 1.1, Definitions). No text is
/// both: a digest has a colon, and a tag has none.
#[derive(Clone, Debug, Drop)]
pub enum Reference {
    Tag(Tag),
    Digest(Digest),
}

impl Reference {
    ghost use Rattle.oci_types.specs.Reference.{IsReference, ReadsReference};

    /// The reference that the text is. `NameFault::Reference` where it is neither a tag nor a digest.
    pub fn parse(alloc: Global, text: &str) -> Result<Reference, NameFault>
        ensures read { ReadsReference result text.now }
        ensures grammar { ReadsWordBy result (IsReference text.now) NameFault.Reference }
    {
        match Tag::parse(alloc, text) {
            Ok(tag) => return Ok(Reference::Tag(tag)),
            Err(NameFault::Memory) => return Err(NameFault::Memory),
            Err(_) => {}
        }
        match Digest::parse(alloc, text) {
            Ok(digest) => Ok(Reference::Digest(digest)),
            Err(NameFault::Memory) => Err(NameFault::Memory),
            Err(_) => Err(NameFault::Reference),
        }
    }
}
