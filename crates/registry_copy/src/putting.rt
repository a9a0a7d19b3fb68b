//! What comes into a copy, once it is known to be what its digest says.
ghost use Rattle.std.specs.Prelude.{◌≡◌, true, Some};
ghost use Rattle.registry_model.specs.Ask.{text_in};
ghost use Rattle.registry_model.specs.Keeping.{Asks};
ghost use Rattle.registry_model.specs.Limits.{largest_blob, largest_manifest};
ghost use Rattle.registry_model.specs.Lookups.{put_blob, put_manifest};
ghost use Rattle.registry_model.specs.World.{has_repo};
ghost use Rattle.registry_copy.specs.Fit.{is_fit, IsFitBlob, IsFitManifest};
ghost use Rattle.registry_copy.specs.Faults.{ReadsManifest};
ghost use Rattle.registry_copy.specs.Steps.{side, IsPut};

use crate::fault::{CopyFault, of_target};
use oci_documents::read_manifest;
use oci_types::{Digest, Manifest, ManifestFault, RepoName, Tag, Verdict};
use registry_model::{Keeper, LARGEST_BLOB, LARGEST_MANIFEST};
use std::alloc::Global;

/// Whether the digest is that of the bytes, which are no more than so many.
fn is_fit(digest: &Digest, bytes: &[u8], most: u64) -> bool
    ensures { result ≡ is_fit digest.now bytes.now most }
{
    bytes.len() as u64 <= most && matches!(digest.verifies(bytes), Verdict::Matches)
}

/// Adds a blob to a repository of the copy. `Damaged`: it has other bytes than its digest says, or too many.
pub(crate) fn put_blob<B: Keeper>(
    to: &mut B,
    repo: &RepoName,
    digest: &Digest,
    bytes: &[u8],
) -> Result<(), CopyFault>
    requires { Asks (B.is_honest to.old) (B.kept to.old) (λ w. has_repo w repo.now ≡ true) }
    ensures { IsPut (side B.is_honest B.kept to.old to.new) result
        (λ w w'. w' ≡ put_blob w repo.now digest.now bytes.now) (IsFitBlob digest.now (Some bytes.now))
        (λ _. ⊥) }
{
    if !is_fit(digest, bytes, LARGEST_BLOB) {
        return Err(CopyFault::Damaged);
    }
    of_target(to.put_blob(repo, digest, bytes))
}

/// A manifest, as its bytes read.
fn manifest_in(alloc: Global, bytes: &[u8]) -> Result<Manifest, CopyFault>
    ensures { ReadsManifest result bytes.now }
{
    match read_manifest(alloc, bytes) {
        Ok(manifest) => Ok(manifest),
        Err(ManifestFault::Memory) => Err(CopyFault::Memory),
        Err(_) => Err(CopyFault::Damaged),
    }
}

/// Adds a manifest to a repository of the copy, and sets the tag to it, if one is given. `Damaged`: it has
/// other bytes than its digest says, or too many, or they read as no manifest.
pub(crate) fn put_manifest<B: Keeper>(
    alloc: Global,
    to: &mut B,
    repo: &RepoName,
    digest: &Digest,
    bytes: &[u8],
    tag: Option<&Tag>,
) -> Result<(), CopyFault>
    requires { Asks (B.is_honest to.old) (B.kept to.old) (λ w. has_repo w repo.now ≡ true) }
    ensures { IsPut (side B.is_honest B.kept to.old to.new) result
        (λ w w'. w' ≡ put_manifest w repo.now digest.now bytes.now (text_in tag.entry))
        (IsFitManifest digest.now (Some bytes.now)) (λ _. ⊥) }
{
    if !is_fit(digest, bytes, LARGEST_MANIFEST) {
        return Err(CopyFault::Damaged);
    }
    match manifest_in(alloc, bytes) {
        Ok(manifest) => of_target(to.put_manifest(repo, digest, bytes, &manifest, tag)),
        Err(fault) => Err(fault),
    }
}
