//! What is wrong in a registry, found over a keeper.
ghost use Rattle.std.specs.Prelude.{◌≡◌, false};
ghost use Rattle.std.specs.List.{filter_map, flat_map};
ghost use Rattle.registry_model.specs.Keeping.{Reads, Spends};
ghost use Rattle.registry_checking.specs.Wrongs.{Notes, wrong_blob_at, wrong_manifest_at, wrong_at, wrong_tag_at, wrong_blobs_at, wrong_manifests_at, wrong_tags_at, wrongs_at, wrongs_of};

use crate::contents::{wrong_blob, wrong_manifest, wrong_tag};
use crate::notes::{note, push_read};
use crate::progress::{Progress, Watch};
use crate::wrong::Wrong;
use oci_types::{Digest, Fault, RepoName, Tag};
use registry_model::{Keeper, Usage};
use std::alloc::Global;

/// What is wrong with a blob.
fn look_at_blob<K: Keeper>(
    alloc: Global,
    keeper: &mut K,
    repo: &RepoName,
    digest: &Digest,
) -> Result<Option<Wrong>, Fault>
    ensures found { K.is_honest keeper.new
        → Reads result (wrong_blob_at (K.kept keeper.old).world repo.now digest.now)
        (K.kept keeper.old) (K.kept keeper.new) }
    ensures spends { Spends result (K.kept keeper.old) (K.kept keeper.new) }
    ensures honest { K.is_honest keeper.new → K.is_honest keeper.old }
{
    let bytes = keeper.blob(alloc, repo, digest)?;
    let size = keeper.blob_size(repo, digest)?;
    wrong_blob(repo, digest, bytes, size)
}

/// What is wrong with a manifest.
fn look_at_manifest<K: Keeper>(
    alloc: Global,
    keeper: &mut K,
    repo: &RepoName,
    digest: &Digest,
) -> Result<Option<Wrong>, Fault>
    ensures found { K.is_honest keeper.new
        → Reads result (wrong_manifest_at (K.kept keeper.old).world repo.now digest.now)
        (K.kept keeper.old) (K.kept keeper.new) }
    ensures spends { Spends result (K.kept keeper.old) (K.kept keeper.new) }
    ensures honest { K.is_honest keeper.new → K.is_honest keeper.old }
{
    let kept = keeper.manifest(alloc, repo, digest)?;
    let sized = keeper.manifest_size(repo, digest)?;
    wrong_manifest(alloc, repo, digest, kept, sized)
}

/// What is wrong with a tag.
fn look_at_tag<K: Keeper>(
    alloc: Global,
    keeper: &mut K,
    repo: &RepoName,
    tag: Tag,
) -> Result<Option<Wrong>, Fault>
    ensures found { K.is_honest keeper.new
        → Reads result (wrong_tag_at (K.kept keeper.old).world repo.now tag)
        (K.kept keeper.old) (K.kept keeper.new) }
    ensures spends { Spends result (K.kept keeper.old) (K.kept keeper.new) }
    ensures honest { K.is_honest keeper.new → K.is_honest keeper.old }
{
    let named = keeper.tag(alloc, repo, &tag)?;
    let Some(digest) = named else {
        return Ok(None);
    };
    let sized = keeper.manifest_size(repo, &digest)?;
    wrong_tag(repo, tag, sized)
}

/// What is kept under a digest.
#[derive(Clone, Copy)]
enum Kept {
    Blob,
    Manifest,
}

/// What is wrong with it.
fn look_at_one<K: Keeper>(
    alloc: Global,
    keeper: &mut K,
    repo: &RepoName,
    kept: Kept,
    digest: &Digest,
) -> Result<Option<Wrong>, Fault>
    ensures found { K.is_honest keeper.new
        → Reads result (wrong_at kept (K.kept keeper.old).world repo.now digest.now)
        (K.kept keeper.old) (K.kept keeper.new) }
    ensures spends { Spends result (K.kept keeper.old) (K.kept keeper.new) }
    ensures honest { K.is_honest keeper.new → K.is_honest keeper.old }
{
    match kept {
        Kept::Blob => look_at_blob(alloc, keeper, repo, digest),
        Kept::Manifest => look_at_manifest(alloc, keeper, repo, digest),
    }
}

/// Notes what is wrong with what is kept under digests. One is held at a time.
fn look_at_all<K: Keeper, W: Watch>(
    alloc: Global,
    keeper: &mut K,
    repo: &RepoName,
    kept: Kept,
    digests: &[Digest],
    progress: &mut Progress<'_, W>,
    wrongs: &mut Vec<Wrong>,
) -> Result<(), Fault>
    requires { (K.kept keeper.old).spent ≡ false }
    ensures found { K.is_honest keeper.new
        → Notes result (filter_map (wrong_at kept (K.kept keeper.old).world repo.now) digests.now)
        wrongs.old.items wrongs.new.items (K.kept keeper.old) (K.kept keeper.new) }
    ensures spends { Spends result (K.kept keeper.old) (K.kept keeper.new) }
    ensures honest { K.is_honest keeper.new → K.is_honest keeper.old }
{
    for digest in digests {
        let found = look_at_one(alloc, keeper, repo, kept, digest);
        note(wrongs, repo, digest, found)?;
        progress.step();
    }
    Ok(())
}

/// Notes what is wrong with the blobs of a repository.
fn look_at_blobs<K: Keeper, W: Watch>(
    alloc: Global,
    keeper: &mut K,
    repo: &RepoName,
    progress: &mut Progress<'_, W>,
    wrongs: &mut Vec<Wrong>,
) -> Result<(), Fault>
    ensures found { K.is_honest keeper.new
        → Notes result (wrong_blobs_at (K.kept keeper.old).world repo.now)
        wrongs.old.items wrongs.new.items (K.kept keeper.old) (K.kept keeper.new) }
    ensures spends { Spends result (K.kept keeper.old) (K.kept keeper.new) }
    ensures honest { K.is_honest keeper.new → K.is_honest keeper.old }
{
    let digests = keeper.blob_digests(alloc, repo)?;
    look_at_all(alloc, keeper, repo, Kept::Blob, &digests, progress, wrongs)
}

/// Notes what is wrong with the manifests of a repository.
fn look_at_manifests<K: Keeper, W: Watch>(
    alloc: Global,
    keeper: &mut K,
    repo: &RepoName,
    progress: &mut Progress<'_, W>,
    wrongs: &mut Vec<Wrong>,
) -> Result<(), Fault>
    ensures found { K.is_honest keeper.new
        → Notes result (wrong_manifests_at (K.kept keeper.old).world repo.now)
        wrongs.old.items wrongs.new.items (K.kept keeper.old) (K.kept keeper.new) }
    ensures spends { Spends result (K.kept keeper.old) (K.kept keeper.new) }
    ensures honest { K.is_honest keeper.new → K.is_honest keeper.old }
{
    let digests = keeper.manifest_digests(alloc, repo)?;
    look_at_all(
        alloc,
        keeper,
        repo,
        Kept::Manifest,
        &digests,
        progress,
        wrongs,
    )
}

/// Notes what is wrong with the tags of a repository.
fn look_at_tags<K: Keeper>(
    alloc: Global,
    keeper: &mut K,
    repo: &RepoName,
    wrongs: &mut Vec<Wrong>,
) -> Result<(), Fault>
    ensures found { K.is_honest keeper.new
        → Notes result (wrong_tags_at (K.kept keeper.old).world repo.now)
        wrongs.old.items wrongs.new.items (K.kept keeper.old) (K.kept keeper.new) }
    ensures spends { Spends result (K.kept keeper.old) (K.kept keeper.new) }
    ensures honest { K.is_honest keeper.new → K.is_honest keeper.old }
{
    let (tags, _) = keeper.tags_after(alloc, repo, "", None)?;
    for tag in tags {
        let found = look_at_tag(alloc, keeper, repo, tag);
        push_read(wrongs, found)?;
    }
    Ok(())
}

/// Notes what is wrong in a repository.
fn look_at_repo<K: Keeper, W: Watch>(
    alloc: Global,
    keeper: &mut K,
    repo: &RepoName,
    progress: &mut Progress<'_, W>,
    wrongs: &mut Vec<Wrong>,
) -> Result<(), Fault>
    ensures found { K.is_honest keeper.new
        → Notes result (wrongs_at (K.kept keeper.old).world repo.now)
        wrongs.old.items wrongs.new.items (K.kept keeper.old) (K.kept keeper.new) }
    ensures spends { Spends result (K.kept keeper.old) (K.kept keeper.new) }
    ensures honest { K.is_honest keeper.new → K.is_honest keeper.old }
{
    look_at_blobs(alloc, keeper, repo, progress, wrongs)?;
    look_at_manifests(alloc, keeper, repo, progress, wrongs)?;
    look_at_tags(alloc, keeper, repo, wrongs)
}

/// Notes what is wrong in repositories.
fn look_at_repos<K: Keeper, W: Watch>(
    alloc: Global,
    keeper: &mut K,
    usages: &[(RepoName, Usage)],
    progress: &mut Progress<'_, W>,
    wrongs: &mut Vec<Wrong>,
) -> Result<(), Fault>
    requires { (K.kept keeper.old).spent ≡ false }
    ensures found { K.is_honest keeper.new
        → Notes result (flat_map (λ u. wrongs_at (K.kept keeper.old).world u.0) usages.now)
        wrongs.old.items wrongs.new.items (K.kept keeper.old) (K.kept keeper.new) }
    ensures spends { Spends result (K.kept keeper.old) (K.kept keeper.new) }
    ensures honest { K.is_honest keeper.new → K.is_honest keeper.old }
{
    for (repo, _) in usages {
        look_at_repo(alloc, keeper, repo, progress, wrongs)?;
    }
    Ok(())
}

/// Notes what is wrong in a registry, repository by repository in byte order of their names: first blobs,
/// then manifests, then tags. Every blob and manifest is read, one at a time; nothing changes. Where the
/// storage fails, the last that is noted is the blob or manifest which cannot be read, if it was one.
pub fn look<K: Keeper, W: Watch>(
    alloc: Global,
    watch: &W,
    keeper: &mut K,
    wrongs: &mut Vec<Wrong>,
) -> Result<(), Fault>
    ensures found { K.is_honest keeper.new
        → Notes result (wrongs_of (K.kept keeper.old).world)
        wrongs.old.items wrongs.new.items (K.kept keeper.old) (K.kept keeper.new) }
    ensures spends { Spends result (K.kept keeper.old) (K.kept keeper.new) }
    ensures honest { K.is_honest keeper.new → K.is_honest keeper.old }
{
    let usages = keeper.usages(alloc)?;
    let mut progress = Progress::new(watch, &usages);
    look_at_repos(alloc, keeper, &usages, &mut progress, wrongs)
}
