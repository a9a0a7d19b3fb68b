//! The push of a blob whose bytes are staged.

ghost use Rattle.std.specs.Prelude.{◌≡◌, ◌≤◌, true, length, option_map};
ghost use Rattle.oci_types.specs.Digest.{matches, verdict_of};
ghost use Rattle.registry_model.specs.Limits.{largest_blob};
ghost use Rattle.registry_model.specs.Decision.{within_quota};
ghost use Rattle.registry_model.specs.Blobs.{created_blob, with_blob, push_blob};
ghost use Rattle.registry_model.specs.Keeping.{Reads, Spends};
ghost use Rattle.operation_parts.specs.Operating.{IsUnspent, HasRepo, Answers, Carries};
ghost use Rattle.staged_operations.specs.Staging.{staged_in, IsStaged, OperatesStaged};

use blob_operations::blobs::push_refusal;
use oci_types::{Digest, Fault, RepoName, Verdict};
use operation_parts::digests::read_digest;
use operation_parts::early::{after, found_or, within_quota};
use operation_parts::quota::blob_goes_over;
use operation_parts::replies::{blob_location, created_blob};
use registry_holding::Holder;
use registry_model::keeper::Found;
use registry_model::{Refusal, Reply};
use std::alloc::Global;

/// How many bytes are staged, and whether the digest is theirs. Hashes as `Holder::verdict` does.
fn verify_stage<H: Holder>(holder: &mut H, key: u64, digest: &Digest) -> Found<(u64, Verdict)>
    requires unspent { IsUnspent (H.kept holder.old) }
    ensures found { H.is_honest holder.new → Reads result
        (option_map (λ t. (length t, verdict_of digest.now t)) ((H.kept holder.old).held.stages key))
        (H.kept holder.old) (H.kept holder.new) }
    ensures spends { Spends result (H.kept holder.old) (H.kept holder.new) }
    ensures honest { H.is_honest holder.new → H.is_honest holder.old }
{
    let Some(sum) = holder.staged(key)? else {
        return Ok(None);
    };
    match holder.verdict(key, digest)? {
        Some(verdict) => Ok(Some((sum.size, verdict))),
        None => Ok(None),
    }
}

/// Adds the bytes that are staged as a blob, within the quota of a repository that is there. The reply's
/// memory is taken before the write.
fn add_staged<H: Holder>(
    holder: &mut H,
    alloc: Global,
    name: &RepoName,
    digest: Digest,
    size: u64,
    key: u64,
) -> Result<Reply, Fault>
    requires unspent { IsUnspent (H.kept holder.old) }
    requires there { H.is_honest holder.old → HasRepo (H.kept holder.old) name.now }
    requires staged { H.is_honest holder.old → IsStaged (H.kept holder.old) key }
    requires matching { H.is_honest holder.old →
        matches digest (staged_in (H.kept holder.old) key) ≡ true }
    requires fits { size ≤ largest_blob }
    requires counted { H.is_honest holder.old → size ≡ length (staged_in (H.kept holder.old) key) }
    ensures comes { H.is_honest holder.new → OperatesStaged result name.now
        (λ t r. within_quota r (with_blob r digest t) (created_blob name.now digest)) key
        (H.kept holder.old) (H.kept holder.new) }
    ensures answers { Answers result }
    ensures carries { Carries result }
    ensures spends { Spends result (H.kept holder.old) (H.kept holder.new) }
    ensures honest { H.is_honest holder.new → H.is_honest holder.old }
{
    let over = blob_goes_over(holder, name, &digest, size, 0);
    match within_quota(over) {
        Ok(()) => {}
        Err(reply) => return reply,
    }
    let Ok(location) = blob_location(alloc, name, &digest) else {
        return Err(Fault::Memory);
    };
    let added = holder.put_staged(name, &digest, key);
    after(added, created_blob(location, digest))
}

/// The push of the bytes that are staged, as a whole blob, to a repository that is there (OCI Distribution
/// Specification 1.1, Pushing blobs). Where nothing is staged it gives up with `Fault::Memory`.
pub fn push_staged_blob<H: Holder>(
    holder: &mut H,
    alloc: Global,
    name: &RepoName,
    text: &str,
    key: u64,
) -> Result<Reply, Fault>
    requires unspent { IsUnspent (H.kept holder.old) }
    requires there { H.is_honest holder.old → HasRepo (H.kept holder.old) name.now }
    ensures comes { H.is_honest holder.new → OperatesStaged result name.now
        (λ t r. push_blob r name.now text.now t) key (H.kept holder.old) (H.kept holder.new) }
    ensures answers { Answers result }
    ensures carries { Carries result }
    ensures spends { Spends result (H.kept holder.old) (H.kept holder.new) }
    ensures honest { H.is_honest holder.new → H.is_honest holder.old }
{
    let digest = match found_or(read_digest(alloc, text), Refusal::InvalidDigest) {
        Ok(digest) => digest,
        Err(reply) => return reply,
    };
    let Some((size, verdict)) = verify_stage(holder, key, &digest)? else {
        return Err(Fault::Memory);
    };
    match push_refusal(verdict, size) {
        Some(refusal) => Ok(Reply::refusal(refusal)),
        None => add_staged(holder, alloc, name, digest, size, key),
    }
}
