//! Mounting a blob from another repository.

ghost use Rattle.std.specs.Prelude.{◌≡◌, Some};
ghost use Rattle.registry_model.specs.World.{repo_at};
ghost use Rattle.registry_model.specs.Ask.{text_in};
ghost use Rattle.registry_model.specs.Keeping.{Spends};
ghost use Rattle.registry_model.specs.Lookups.{blob_at, blob_size_at};
ghost use Rattle.registry_model.specs.Mount as mounts;
ghost use Rattle.operation_parts.specs.Operating.{IsUnspent, HasRepo, Answers, Carries, OperatesWith};
ghost use Rattle.blob_operations.specs.Mounting.{source_at};
ghost use Rattle.operation_parts.specs.Finding.{Finds};

use crate::uploads::open_session;
use oci_types::{Digest, Fault, NameFault, RepoName, Token};
use operation_parts::digests::read_digest;
use operation_parts::early::{after, found_or, within_quota};
use operation_parts::quota::blob_goes_over;
use operation_parts::replies::{blob_location, created_blob};
use registry_model::{Keeper, Refusal, Reply};
use std::alloc::Global;

/// Where a blob is mounted from: a repository that the token may read, and the blob's length there.
#[derive(Drop)]
pub struct Source {
    pub name: RepoName,
    pub size: u64,
}

/// The repository that the text names, where the token has a level on it and it has the blob.
fn find_source<K: Keeper>(
    keeper: &mut K,
    alloc: Global,
    token: &Token,
    from: Option<&str>,
    digest: &Digest,
) -> Result<Option<Source>, Fault>
    requires unspent { IsUnspent (K.kept keeper.old) }
    ensures found { K.is_honest keeper.new → Finds result
        (λ w. source_at w token.now (text_in from.entry) digest.now)
        (K.kept keeper.old) (K.kept keeper.new) }
    ensures spends { Spends result (K.kept keeper.old) (K.kept keeper.new) }
    ensures honest { K.is_honest keeper.new → K.is_honest keeper.old }
{
    let Some(text) = from else {
        return Ok(None);
    };
    let name = match RepoName::parse(alloc, text) {
        Ok(name) => name,
        Err(fault) => match fault {
            NameFault::Memory => return Err(Fault::Memory),
            _ => return Ok(None),
        },
    };
    let Some(_) = keeper.level(token, &name)? else {
        return Ok(None);
    };
    match keeper.blob_size(&name, digest)? {
        None => Ok(None),
        Some(size) => Ok(Some(Source { name, size })),
    }
}

/// Adds the blob that the source has, where the quota allows it.
fn mount_from<K: Keeper>(
    keeper: &mut K,
    alloc: Global,
    source: &Source,
    name: &RepoName,
    digest: Digest,
) -> Result<Reply, Fault>
    requires unspent { IsUnspent (K.kept keeper.old) }
    requires there { K.is_honest keeper.old → HasRepo (K.kept keeper.old) name.now }
    requires source { K.is_honest keeper.old →
        blob_size_at (K.kept keeper.old).world source.now.name digest ≡ Some source.now.size }
    ensures comes { K.is_honest keeper.new → OperatesWith result name.now
        (λ w r. mounts.mounted r name.now digest (blob_at w source.now.name digest))
        (K.kept keeper.old) (K.kept keeper.new) }
    ensures answers { Answers result }
    ensures carries { Carries result }
    ensures spends { Spends result (K.kept keeper.old) (K.kept keeper.new) }
    ensures honest { K.is_honest keeper.new → K.is_honest keeper.old }
{
    match within_quota(blob_goes_over(keeper, name, &digest, source.size, 0)) {
        Ok(()) => {}
        Err(reply) => return reply,
    }
    let Ok(location) = blob_location(alloc, name, &digest) else {
        return Err(Fault::Memory);
    };
    let mounted = keeper.mount(&source.name, name, &digest);
    after(mounted, created_blob(location, digest))
}

/// POST with `mount`: adds a blob that another repository has (OCI Distribution Specification 1.1,
/// Mounting a blob from another repository). Where the token may not read there, or the blob is not
/// there, an upload session is opened in its place, and the reply does not tell which it was.
pub fn mount_blob<K: Keeper>(
    keeper: &mut K,
    alloc: Global,
    token: &Token,
    name: &RepoName,
    digest: &str,
    from: Option<&str>,
) -> Result<Reply, Fault>
    requires unspent { IsUnspent (K.kept keeper.old) }
    requires there { K.is_honest keeper.old → HasRepo (K.kept keeper.old) name.now }
    ensures comes { K.is_honest keeper.new → OperatesWith result name.now
        (λ w r. mounts.mount_blob (w.grants token.now) (repo_at w) r name.now digest.now (text_in from.entry))
        (K.kept keeper.old) (K.kept keeper.new) }
    ensures answers { Answers result }
    ensures carries { Carries result }
    ensures spends { Spends result (K.kept keeper.old) (K.kept keeper.new) }
    ensures honest { K.is_honest keeper.new → K.is_honest keeper.old }
{
    let wanted = match found_or(read_digest(alloc, digest), Refusal::InvalidDigest) {
        Ok(digest) => digest,
        Err(reply) => return reply,
    };
    match find_source(keeper, alloc, token, from, &wanted)? {
        None => open_session(keeper, alloc, name),
        Some(source) => mount_from(keeper, alloc, &source, name, wanted),
    }
}
