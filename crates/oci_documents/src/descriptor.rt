//! Descriptors: how a manifest names content.

ghost use Rattle.std.specs.Prelude.{◌≡◌};
ghost use Rattle.serde_json.specs.View.{view, items_view};
ghost use Rattle.oci_types.specs.Part.{Finds};
ghost use Rattle.oci_types.specs.Descriptor.{type_at, digest_at, descriptor_of, descriptors_of};
ghost use Rattle.oci_documents.specs.Shown.{descriptor_shown, descriptors_shown};

use crate::member;
use oci_types::{Digest, ManifestFault, NameFault};
use serde_json::Value;
use std::alloc::Global;

/// What is kept of a descriptor.
pub(crate) struct Descriptor {
    pub(crate) media_type: String,
    pub(crate) digest: Digest,
    /// Its content may be had from a URL.
    pub(crate) elsewhere: bool,
}

impl Drop for Descriptor {
    fn drop(self) {
        let Descriptor {
            media_type: _,
            digest: _,
            elsewhere: _,
        } = self;
    }
}

impl Descriptor {
    pub(crate) fn into_digest(self) -> Digest
        ensures { result ≡ self.digest }
    {
        let Descriptor {
            media_type: _,
            digest,
            elsewhere: _,
        } = self;
        digest
    }

    /// Its media type and its digest.
    pub(crate) fn into_parts(self) -> (String, Digest)
        ensures { result ≡ (self.media_type, self.digest) }
    {
        let Descriptor {
            media_type,
            digest,
            elsewhere: _,
        } = self;
        (media_type, digest)
    }
}

fn read_media_type<'v>(fault: ManifestFault, value: &'v Value) -> Result<&'v str, ManifestFault>
    ensures { Finds fault (λ s. s.now) result (type_at (view value.now)) }
{
    let text = member::text(fault, value, "mediaType")?;
    if text.is_empty() {
        Err(fault)
    } else {
        Ok(text)
    }
}

fn read_digest(alloc: Global, fault: ManifestFault, value: &Value) -> Result<Digest, ManifestFault>
    ensures { Finds fault (λ d. d) result (digest_at (view value.now)) }
{
    let text = member::text(fault, value, "digest")?;
    match Digest::parse(alloc, text) {
        Ok(digest) => Ok(digest),
        Err(NameFault::Memory) => Err(ManifestFault::Memory),
        Err(_) => Err(fault),
    }
}

/// The descriptor that the value is. The fault is that of the rule which asks for it.
#[tactic(auto, unfolding(oci_types::specs::Descriptor::descriptor_of))]
pub(crate) fn read_descriptor(
    alloc: Global,
    fault: ManifestFault,
    value: &Value,
) -> Result<Descriptor, ManifestFault>
    ensures { Finds fault descriptor_shown result (descriptor_of (view value.now)) }
{
    let media_type = read_media_type(fault, value)?;
    let digest = read_digest(alloc, fault, value)?;
    let _size = member::size(fault, value, "size")?;
    let elsewhere = member::some_text(fault, value, "urls")?;
    drop(member::texts(alloc, fault, value, "annotations")?);
    let _inline = member::optional_text(fault, value, "data")?;
    let _artifact_type = member::optional_text(fault, value, "artifactType")?;
    let media_type = String::from_str(alloc, media_type)?;
    Ok(Descriptor {
        media_type,
        digest,
        elsewhere,
    })
}

/// The descriptors that the values are, in their order.
pub(crate) fn read_descriptors(
    alloc: Global,
    fault: ManifestFault,
    values: &[Value],
) -> Result<Vec<Descriptor>, ManifestFault>
    ensures { Finds fault (λ v. descriptors_shown v.items) result
        (descriptors_of (items_view values.now)) }
{
    let mut found = Vec::new(alloc);
    for value in values {
        let descriptor = read_descriptor(alloc, fault, value)?;
        found.push(descriptor)?;
    }
    Ok(found)
}
