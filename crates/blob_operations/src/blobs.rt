ghost use Rattle.std.specs.Prelude.{◌≡◌, ◌≤◌, true, length, nat_lt};
ghost use Rattle.oci_types.specs.Digest.{matches};
ghost use Rattle.registry_model.specs.Limits.{largest_blob};
ghost use Rattle.registry_model.specs.Decision.{within_quota};
ghost use Rattle.registry_model.specs.Blobs.{created_blob, with_blob, read_blob, size_blob, delete_blob, push_blob};
ghost use Rattle.registry_model.specs.Keeping.{Spends};
ghost use Rattle.operation_parts.specs.Operating.{Operates, IsUnspent, HasRepo, Answers, Carries};
ghost use Rattle.blob_operations.specs.Pushing.{push_refusal};

use oci_types::{Digest, Fault, RepoName, Verdict};
use operation_parts::digests::read_digest;
use operation_parts::early::{after, found_or, within_quota};
use operation_parts::quota::blob_goes_over;
use operation_parts::replies::{blob_location, created_blob, found};
use registry_model::{Body, Keeper, LARGEST_BLOB, Refusal, Reply, Status};
use std::alloc::Global;

/// GET of a blob in a repository that is there.
pub fn read_blob<K: Keeper>(
    keeper: &mut K,
    alloc: Global,
    name: &RepoName,
    text: &str,
) -> Result<Reply, Fault>
    requires unspent { IsUnspent (K.kept keeper.old) }
    requires there { K.is_honest keeper.old → HasRepo (K.kept keeper.old) name.now }
    ensures comes { K.is_honest keeper.new →
        Operates result name.now (λ r. read_blob r text.now) (K.kept keeper.old) (K.kept keeper.new) }
    ensures answers { Answers result }
    ensures carries { Carries result }
    ensures spends { Spends result (K.kept keeper.old) (K.kept keeper.new) }
    ensures honest { K.is_honest keeper.new → K.is_honest keeper.old }
{
    let digest = match found_or(read_digest(alloc, text), Refusal::BlobUnknown) {
        Ok(digest) => digest,
        Err(reply) => return reply,
    };
    match found_or(keeper.blob(alloc, name, &digest), Refusal::BlobUnknown) {
        Ok(bytes) => Ok(found(digest, "application/octet-stream", Body::Shared(bytes))),
        Err(reply) => reply,
    }
}

/// HEAD of a blob in a repository that is there: its length, and none of its bytes.
pub fn size_blob<K: Keeper>(
    keeper: &mut K,
    alloc: Global,
    name: &RepoName,
    text: &str,
) -> Result<Reply, Fault>
    requires unspent { IsUnspent (K.kept keeper.old) }
    requires there { K.is_honest keeper.old → HasRepo (K.kept keeper.old) name.now }
    ensures comes { K.is_honest keeper.new →
        Operates result name.now (λ r. size_blob r text.now) (K.kept keeper.old) (K.kept keeper.new) }
    ensures answers { Answers result }
    ensures spends { Spends result (K.kept keeper.old) (K.kept keeper.new) }
    ensures honest { K.is_honest keeper.new → K.is_honest keeper.old }
{
    let digest = match found_or(read_digest(alloc, text), Refusal::BlobUnknown) {
        Ok(digest) => digest,
        Err(reply) => return reply,
    };
    match found_or(keeper.blob_size(name, &digest), Refusal::BlobUnknown) {
        Ok(size) => Ok(found(digest, "application/octet-stream", Body::Unsent(size))),
        Err(reply) => reply,
    }
}

/// DELETE of a blob in a repository that is there; a manifest that names it stays.
pub fn delete_blob<K: Keeper>(
    keeper: &mut K,
    alloc: Global,
    name: &RepoName,
    text: &str,
) -> Result<Reply, Fault>
    requires unspent { IsUnspent (K.kept keeper.old) }
    requires there { K.is_honest keeper.old → HasRepo (K.kept keeper.old) name.now }
    ensures comes { K.is_honest keeper.new →
        Operates result name.now (λ r. delete_blob r text.now) (K.kept keeper.old) (K.kept keeper.new) }
    ensures answers { Answers result }
    ensures carries { Carries result }
    ensures spends { Spends result (K.kept keeper.old) (K.kept keeper.new) }
    ensures honest { K.is_honest keeper.new → K.is_honest keeper.old }
{
    let digest = match found_or(read_digest(alloc, text), Refusal::BlobUnknown) {
        Ok(digest) => digest,
        Err(reply) => return reply,
    };
    let size = keeper.blob_size(name, &digest);
    match found_or(size, Refusal::BlobUnknown) {
        Ok(_) => after(
            keeper.delete_blob(name, &digest),
            Reply::bare(Status::Accepted),
        ),
        Err(reply) => reply,
    }
}

/// Adds a blob within the quota of a repository that is there. The reply's memory is taken before the
/// write.
fn add_blob<K: Keeper>(
    keeper: &mut K,
    alloc: Global,
    name: &RepoName,
    digest: Digest,
    body: &[u8],
) -> Result<Reply, Fault>
    requires unspent { IsUnspent (K.kept keeper.old) }
    requires there { K.is_honest keeper.old → HasRepo (K.kept keeper.old) name.now }
    requires matching { matches digest body.now ≡ true }
    requires fits { length body.now ≤ largest_blob }
    ensures comes { K.is_honest keeper.new → Operates result name.now
        (λ r. within_quota r (with_blob r digest body.now) (created_blob name.now digest))
        (K.kept keeper.old) (K.kept keeper.new) }
    ensures answers { Answers result }
    ensures carries { Carries result }
    ensures spends { Spends result (K.kept keeper.old) (K.kept keeper.new) }
    ensures honest { K.is_honest keeper.new → K.is_honest keeper.old }
{
    let over = blob_goes_over(keeper, name, &digest, body.len() as u64, 0);
    match within_quota(over) {
        Ok(()) => {}
        Err(reply) => return reply,
    }
    let Ok(location) = blob_location(alloc, name, &digest) else {
        return Err(Fault::Memory);
    };
    let added = keeper.put_blob(name, &digest, body);
    after(added, created_blob(location, digest))
}

/// Why so many bytes are not pushed, if they are not, by the verdict on their digest.
pub fn push_refusal(verdict: Verdict, length: u64) -> Option<Refusal>
    ensures { result ≡ push_refusal verdict (nat_lt largest_blob length) }
{
    match verdict {
        Verdict::Unsupported => Some(Refusal::InvalidDigest),
        Verdict::Differs => {
            if length > LARGEST_BLOB {
                Some(Refusal::ContentTooLarge)
            } else {
                Some(Refusal::DigestMismatch)
            }
        }
        Verdict::Matches => {
            if length > LARGEST_BLOB {
                Some(Refusal::ContentTooLarge)
            } else {
                None
            }
        }
    }
}

/// The push of a whole blob to a repository that is there. The body is hashed once.
pub fn push_blob<K: Keeper>(
    keeper: &mut K,
    alloc: Global,
    name: &RepoName,
    text: &str,
    body: &[u8],
) -> Result<Reply, Fault>
    requires unspent { IsUnspent (K.kept keeper.old) }
    requires there { K.is_honest keeper.old → HasRepo (K.kept keeper.old) name.now }
    ensures comes { K.is_honest keeper.new → Operates result name.now
        (λ r. push_blob r name.now text.now body.now) (K.kept keeper.old) (K.kept keeper.new) }
    ensures answers { Answers result }
    ensures carries { Carries result }
    ensures spends { Spends result (K.kept keeper.old) (K.kept keeper.new) }
    ensures honest { K.is_honest keeper.new → K.is_honest keeper.old }
{
    let digest = match found_or(read_digest(alloc, text), Refusal::InvalidDigest) {
        Ok(digest) => digest,
        Err(reply) => return reply,
    };
    match push_refusal(digest.verifies(body), body.len() as u64) {
        Some(refusal) => Ok(Reply::refusal(refusal)),
        None => add_blob(keeper, alloc, name, digest, body),
    }
}
