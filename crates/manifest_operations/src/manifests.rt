//! Manifests by tag and by digest: GET, HEAD and DELETE (OCI Distribution Specification 1.1, Pulling
//! manifests, Deleting tags, Deleting Manifests).

ghost use Rattle.registry_model.specs.Keeping.{Spends};
ghost use Rattle.registry_model.specs.Manifests.{reference_digest, read_manifest, size_manifest, delete_manifest, delete_tag, delete_digest};
ghost use Rattle.operation_parts.specs.Operating.{Operates, IsUnspent, HasRepo, Answers, Carries};
ghost use Rattle.operation_parts.specs.Finding.{FindsIn};

use oci_types::{Digest, Fault, NameFault, Reference, RepoName, Tag};
use operation_parts::early::{after, found_or};
use operation_parts::replies::found;
use registry_model::{Body, Keeper, Refusal, Reply, Status};
use std::alloc::Global;

/// The digest that a reference names in a repository that is there: what a tag was set to, and a
/// digest itself; nothing where the text is neither.
fn find_digest<K: Keeper>(
    keeper: &mut K,
    alloc: Global,
    name: &RepoName,
    reference: &str,
) -> Result<Option<Digest>, Fault>
    requires unspent { IsUnspent (K.kept keeper.old) }
    requires there { K.is_honest keeper.old → HasRepo (K.kept keeper.old) name.now }
    ensures found { K.is_honest keeper.new → FindsIn result name.now
        (λ r. reference_digest r reference.now) (K.kept keeper.old) (K.kept keeper.new) }
    ensures spends { Spends result (K.kept keeper.old) (K.kept keeper.new) }
    ensures honest { K.is_honest keeper.new → K.is_honest keeper.old }
{
    match Reference::parse(alloc, reference) {
        Ok(Reference::Tag(tag)) => keeper.tag(alloc, name, &tag),
        Ok(Reference::Digest(digest)) => Ok(Some(digest)),
        Err(fault) => match fault {
            NameFault::Memory => Err(Fault::Memory),
            _ => Ok(None),
        },
    }
}

/// GET of a manifest in a repository that is there: its bytes as they were pushed.
pub fn read_manifest<K: Keeper>(
    keeper: &mut K,
    alloc: Global,
    name: &RepoName,
    reference: &str,
) -> Result<Reply, Fault>
    requires unspent { IsUnspent (K.kept keeper.old) }
    requires there { K.is_honest keeper.old → HasRepo (K.kept keeper.old) name.now }
    ensures comes { K.is_honest keeper.new → Operates result name.now
        (λ r. read_manifest r reference.now) (K.kept keeper.old) (K.kept keeper.new) }
    ensures answers { Answers result }
    ensures carries { Carries result }
    ensures spends { Spends result (K.kept keeper.old) (K.kept keeper.new) }
    ensures honest { K.is_honest keeper.new → K.is_honest keeper.old }
{
    let named = find_digest(keeper, alloc, name, reference);
    let digest = match found_or(named, Refusal::ManifestUnknown) {
        Ok(digest) => digest,
        Err(reply) => return reply,
    };
    match found_or(
        keeper.manifest(alloc, name, &digest),
        Refusal::ManifestUnknown,
    ) {
        Ok((kind, bytes)) => Ok(found(digest, kind.media_type(), Body::Owned(bytes))),
        Err(reply) => reply,
    }
}

/// HEAD of a manifest in a repository that is there: its length, and none of its bytes.
pub fn size_manifest<K: Keeper>(
    keeper: &mut K,
    alloc: Global,
    name: &RepoName,
    reference: &str,
) -> Result<Reply, Fault>
    requires unspent { IsUnspent (K.kept keeper.old) }
    requires there { K.is_honest keeper.old → HasRepo (K.kept keeper.old) name.now }
    ensures comes { K.is_honest keeper.new → Operates result name.now
        (λ r. size_manifest r reference.now) (K.kept keeper.old) (K.kept keeper.new) }
    ensures answers { Answers result }
    ensures spends { Spends result (K.kept keeper.old) (K.kept keeper.new) }
    ensures honest { K.is_honest keeper.new → K.is_honest keeper.old }
{
    let named = find_digest(keeper, alloc, name, reference);
    let digest = match found_or(named, Refusal::ManifestUnknown) {
        Ok(digest) => digest,
        Err(reply) => return reply,
    };
    match found_or(
        keeper.manifest_size(name, &digest),
        Refusal::ManifestUnknown,
    ) {
        Ok((kind, size)) => Ok(found(digest, kind.media_type(), Body::Unsent(size))),
        Err(reply) => reply,
    }
}

/// Takes a tag away; the manifest that it names stays.
fn delete_tag<K: Keeper>(
    keeper: &mut K,
    alloc: Global,
    name: &RepoName,
    tag: &Tag,
) -> Result<Reply, Fault>
    requires unspent { IsUnspent (K.kept keeper.old) }
    requires there { K.is_honest keeper.old → HasRepo (K.kept keeper.old) name.now }
    ensures comes { K.is_honest keeper.new →
        Operates result name.now (λ r. delete_tag r tag.now) (K.kept keeper.old) (K.kept keeper.new) }
    ensures answers { Answers result }
    ensures carries { Carries result }
    ensures spends { Spends result (K.kept keeper.old) (K.kept keeper.new) }
    ensures honest { K.is_honest keeper.new → K.is_honest keeper.old }
{
    match found_or(keeper.tag(alloc, name, tag), Refusal::ManifestUnknown) {
        Ok(_) => after(keeper.delete_tag(name, tag), Reply::bare(Status::Accepted)),
        Err(reply) => reply,
    }
}

/// Takes a manifest away, and each tag that names it.
fn delete_digest<K: Keeper>(
    keeper: &mut K,
    name: &RepoName,
    digest: &Digest,
) -> Result<Reply, Fault>
    requires unspent { IsUnspent (K.kept keeper.old) }
    requires there { K.is_honest keeper.old → HasRepo (K.kept keeper.old) name.now }
    ensures comes { K.is_honest keeper.new →
        Operates result name.now (λ r. delete_digest r digest.now) (K.kept keeper.old) (K.kept keeper.new) }
    ensures answers { Answers result }
    ensures carries { Carries result }
    ensures spends { Spends result (K.kept keeper.old) (K.kept keeper.new) }
    ensures honest { K.is_honest keeper.new → K.is_honest keeper.old }
{
    match found_or(keeper.manifest_size(name, digest), Refusal::ManifestUnknown) {
        Ok(_) => after(
            keeper.delete_manifest(name, digest),
            Reply::bare(Status::Accepted),
        ),
        Err(reply) => reply,
    }
}

/// DELETE in a repository that is there: by tag of that tag alone, by digest of the manifest and of
/// each tag that names it.
pub fn delete_manifest<K: Keeper>(
    keeper: &mut K,
    alloc: Global,
    name: &RepoName,
    reference: &str,
) -> Result<Reply, Fault>
    requires unspent { IsUnspent (K.kept keeper.old) }
    requires there { K.is_honest keeper.old → HasRepo (K.kept keeper.old) name.now }
    ensures comes { K.is_honest keeper.new → Operates result name.now
        (λ r. delete_manifest r reference.now) (K.kept keeper.old) (K.kept keeper.new) }
    ensures answers { Answers result }
    ensures carries { Carries result }
    ensures spends { Spends result (K.kept keeper.old) (K.kept keeper.new) }
    ensures honest { K.is_honest keeper.new → K.is_honest keeper.old }
{
    match Reference::parse(alloc, reference) {
        Ok(Reference::Tag(tag)) => delete_tag(keeper, alloc, name, &tag),
        Ok(Reference::Digest(digest)) => delete_digest(keeper, name, &digest),
        Err(fault) => match fault {
            NameFault::Memory => Err(Fault::Memory),
            _ => Ok(Reply::refusal(Refusal::ManifestUnknown)),
        },
    }
}
