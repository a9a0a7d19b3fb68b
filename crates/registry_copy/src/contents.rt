//! Blobs and manifests, one at a time.
ghost use Rattle.std.specs.Prelude.{◌≡◌, true};
ghost use Rattle.registry_model.specs.Ask.{text_in};
ghost use Rattle.registry_model.specs.Keeping.{Asks};
ghost use Rattle.registry_model.specs.Lookups.{blob_at, manifest_bytes_at};
ghost use Rattle.registry_model.specs.World.{has_repo};
ghost use Rattle.registry_copy.specs.Fit.{IsFitBlob, IsFitManifest};
ghost use Rattle.registry_copy.specs.Parts.{BlobComes, ManifestComes, ContentComes, IsFitContent};
ghost use Rattle.registry_copy.specs.Steps.{side, IsStep};

use crate::fault::{CopyFault, of_source};
use crate::putting::{put_blob, put_manifest};
use oci_types::{Digest, RepoName, Tag};
use registry_model::Keeper;
use std::alloc::Global;

/// Copies a blob.
fn copy_blob<A: Keeper, B: Keeper>(
    alloc: Global,
    from: &mut A,
    to: &mut B,
    repo: &RepoName,
    digest: &Digest,
) -> Result<(), CopyFault>
    requires { Asks (B.is_honest to.old) (B.kept to.old) (λ w. has_repo w repo.now ≡ true) }
    ensures { IsStep (side A.is_honest A.kept from.old from.new) (side B.is_honest B.kept to.old to.new)
        result (λ a _. BlobComes a repo.now digest.now)
        (λ a. IsFitBlob digest.now (blob_at a repo.now digest.now)) (λ _ _. ⊥) }
{
    match of_source(from.blob(alloc, repo, digest)) {
        Ok(Some(bytes)) => put_blob(to, repo, digest, &bytes),
        Ok(None) => Err(CopyFault::Damaged),
        Err(fault) => Err(fault),
    }
}

/// Copies a manifest, and sets the tag to it, if one is given.
pub(crate) fn copy_manifest<A: Keeper, B: Keeper>(
    alloc: Global,
    from: &mut A,
    to: &mut B,
    repo: &RepoName,
    digest: &Digest,
    tag: Option<&Tag>,
) -> Result<(), CopyFault>
    requires { Asks (B.is_honest to.old) (B.kept to.old) (λ w. has_repo w repo.now ≡ true) }
    ensures { IsStep (side A.is_honest A.kept from.old from.new) (side B.is_honest B.kept to.old to.new)
        result (λ a _. ManifestComes a repo.now digest.now (text_in tag.entry))
        (λ a. IsFitManifest digest.now (manifest_bytes_at a repo.now digest.now)) (λ _ _. ⊥) }
{
    match of_source(from.manifest(alloc, repo, digest)) {
        Ok(Some((_, bytes))) => put_manifest(alloc, to, repo, digest, &bytes, tag),
        Ok(None) => Err(CopyFault::Damaged),
        Err(fault) => Err(fault),
    }
}

/// What is kept under a digest.
#[derive(Clone, Copy)]
pub(crate) enum ContentKind {
    Blob,
    Manifest,
}

/// Copies it.
pub(crate) fn copy_content<A: Keeper, B: Keeper>(
    alloc: Global,
    from: &mut A,
    to: &mut B,
    repo: &RepoName,
    kind: ContentKind,
    digest: &Digest,
) -> Result<(), CopyFault>
    requires { Asks (B.is_honest to.old) (B.kept to.old) (λ w. has_repo w repo.now ≡ true) }
    ensures { IsStep (side A.is_honest A.kept from.old from.new) (side B.is_honest B.kept to.old to.new)
        result (λ a _. ContentComes kind a repo.now digest.now)
        (λ a. IsFitContent kind a repo.now digest.now) (λ _ _. ⊥) }
{
    match kind {
        ContentKind::Blob => copy_blob(alloc, from, to, repo, digest),
        ContentKind::Manifest => copy_manifest(alloc, from, to, repo, digest, None),
    }
}
