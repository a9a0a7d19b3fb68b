//! All blobs, manifests and tags of a repository, as they are listed.
ghost use Rattle.std.specs.Prelude.{◌≡◌, true, All};
ghost use Rattle.registry_model.specs.Keeping.{Asks, ReadsBy, Spends, digests_shown};
ghost use Rattle.registry_model.specs.Lookups.{manifest_bytes_at};
ghost use Rattle.registry_model.specs.World.{has_repo};
ghost use Rattle.registry_copy.specs.Fit.{IsFitAt, IsFitManifest};
ghost use Rattle.registry_copy.specs.Parts.{digests_of, ContentComes, IsFitContent, ContentsCome, TagComes, TagsCome};
ghost use Rattle.registry_copy.specs.Steps.{side, Chain, IsStep};

use crate::contents::{ContentKind, copy_content, copy_manifest};
use crate::fault::{CopyFault, of_source};
use oci_types::{Digest, Fault, RepoName, Tag};
use registry_checking::Watch;
use registry_checking::progress::Progress;
use registry_model::Keeper;
use std::alloc::Global;

/// Copies the blobs or manifests of these digests. One is held at a time.
fn copy_each<A: Keeper, B: Keeper, W: Watch>(
    alloc: Global,
    from: &mut A,
    to: &mut B,
    repo: &RepoName,
    kind: ContentKind,
    digests: &[Digest],
    progress: &mut Progress<'_, W>,
) -> Result<(), CopyFault>
    requires { Asks (B.is_honest to.old) (B.kept to.old) (λ w. has_repo w repo.now ≡ true) }
    ensures { IsStep (side A.is_honest A.kept from.old from.new) (side B.is_honest B.kept to.old to.new)
        result (λ a _. Chain (ContentComes kind a repo.now) digests.now)
        (λ a. All (IsFitContent kind a repo.now) digests.now) (λ _ _. ⊥) }
{
    for digest in digests {
        copy_content(alloc, from, to, repo, kind, digest)?;
        progress.step();
    }
    Ok(())
}

/// The digests of the blobs of a repository, or of its manifests, in byte order.
fn list_digests<A: Keeper>(
    alloc: Global,
    from: &mut A,
    repo: &RepoName,
    kind: ContentKind,
) -> Result<Vec<Digest>, Fault>
    ensures found { A.is_honest from.new → ReadsBy digests_shown result
        (digests_of kind (A.kept from.old).world repo.now) (A.kept from.old) (A.kept from.new) }
    ensures spends { Spends result (A.kept from.old) (A.kept from.new) }
    ensures honest { A.is_honest from.new → A.is_honest from.old }
{
    match kind {
        ContentKind::Blob => from.blob_digests(alloc, repo),
        ContentKind::Manifest => from.manifest_digests(alloc, repo),
    }
}

/// Copies the blobs of a repository, or its manifests.
pub(crate) fn copy_contents<A: Keeper, B: Keeper, W: Watch>(
    alloc: Global,
    from: &mut A,
    to: &mut B,
    repo: &RepoName,
    kind: ContentKind,
    progress: &mut Progress<'_, W>,
) -> Result<(), CopyFault>
    requires { Asks (B.is_honest to.old) (B.kept to.old) (λ w. has_repo w repo.now ≡ true) }
    ensures { IsStep (side A.is_honest A.kept from.old from.new) (side B.is_honest B.kept to.old to.new)
        result (λ a _. ContentsCome kind a repo.now) (λ a. IsFitAt a repo.now) (λ _ _. ⊥) }
{
    match of_source(list_digests(alloc, from, repo, kind)) {
        Ok(digests) => copy_each(alloc, from, to, repo, kind, &digests, progress),
        Err(fault) => Err(fault),
    }
}

/// Copies these tags, each with the manifest that it names.
fn copy_each_tag<A: Keeper, B: Keeper>(
    alloc: Global,
    from: &mut A,
    to: &mut B,
    repo: &RepoName,
    tags: &[(Tag, Digest)],
) -> Result<(), CopyFault>
    requires { Asks (B.is_honest to.old) (B.kept to.old) (λ w. has_repo w repo.now ≡ true) }
    ensures { IsStep (side A.is_honest A.kept from.old from.new) (side B.is_honest B.kept to.old to.new)
        result (λ a _. Chain (TagComes a repo.now) tags.now)
        (λ a. All (λ e. IsFitManifest e.1 (manifest_bytes_at a repo.now e.1)) tags.now) (λ _ _. ⊥) }
{
    for (tag, digest) in tags {
        copy_manifest(alloc, from, to, repo, digest, Some(tag))?;
    }
    Ok(())
}

/// Copies the tags of a repository.
pub(crate) fn copy_tags<A: Keeper, B: Keeper>(
    alloc: Global,
    from: &mut A,
    to: &mut B,
    repo: &RepoName,
) -> Result<(), CopyFault>
    requires { Asks (B.is_honest to.old) (B.kept to.old) (λ w. has_repo w repo.now ≡ true) }
    ensures { IsStep (side A.is_honest A.kept from.old from.new) (side B.is_honest B.kept to.old to.new)
        result (λ a _. TagsCome a repo.now) (λ a. IsFitAt a repo.now) (λ _ _. ⊥) }
{
    match of_source(from.tags(alloc, repo)) {
        Ok(tags) => copy_each_tag(alloc, from, to, repo, &tags),
        Err(fault) => Err(fault),
    }
}
