//! The end of an upload session whose last chunk is staged.

ghost use Rattle.std.specs.Prelude.{◌≡◌, ◌≤◌, ◌+◌, ◌++◌, true, length};
ghost use Rattle.oci_types.specs.Digest.{is_verified, matches};
ghost use Rattle.registry_model.specs.Limits.{largest_blob};
ghost use Rattle.registry_model.specs.Ask.{text_in};
ghost use Rattle.registry_model.specs.Keeping.{Spends};
ghost use Rattle.registry_model.specs.Lookups.{bytes_or_none, session_at};
ghost use Rattle.registry_model.specs.Sessions as sessions;
ghost use Rattle.operation_parts.specs.Operating.{IsUnspent, HasRepo, Answers, Carries};
ghost use Rattle.blob_operations.specs.Uploads.{bytes_so_far, finish_with, IsOpen};
ghost use Rattle.staged_operations.specs.Staging.{staged_in, IsStaged, OperatesStaged};

use blob_operations::session_close::{given_digest, last_verdict};
use blob_operations::uploads::{Upload, chunk_refusal, find_upload};
use oci_types::{Digest, Fault, RepoName, Verdict};
use operation_parts::early::{after, found_or, within_quota};
use operation_parts::quota::blob_goes_over;
use operation_parts::replies::{blob_location, created_blob};
use registry_holding::Holder;
use registry_model::{Refusal, Reply};
use std::alloc::Global;

/// Ends an upload session whose bytes, and those that are staged behind them, match the digest, where the
/// quota allows it.
fn finish<H: Holder>(
    holder: &mut H,
    alloc: Global,
    name: &RepoName,
    upload: Upload,
    digest: Digest,
    size: u64,
    key: u64,
) -> Result<Reply, Fault>
    requires unspent { IsUnspent (H.kept holder.old) }
    requires open { H.is_honest holder.old → IsOpen (H.kept holder.old) name.now upload }
    requires staged { H.is_honest holder.old → IsStaged (H.kept holder.old) key }
    requires matching { H.is_honest holder.old → matches digest
        (bytes_or_none (session_at (H.kept holder.old).world name.now upload.number)
        ++ staged_in (H.kept holder.old) key) ≡ true }
    requires fits { upload.size + size ≤ largest_blob }
    requires counted { H.is_honest holder.old → size ≡ length (staged_in (H.kept holder.old) key) }
    ensures comes { H.is_honest holder.new → OperatesStaged result name.now
        (λ t r. finish_with r name.now upload.number digest (bytes_so_far r upload.number ++ t)) key
        (H.kept holder.old) (H.kept holder.new) }
    ensures answers { Answers result }
    ensures carries { Carries result }
    ensures spends { Spends result (H.kept holder.old) (H.kept holder.new) }
    ensures honest { H.is_honest holder.new → H.is_honest holder.old }
{
    let over = blob_goes_over(holder, name, &digest, upload.size + size, upload.size);
    match within_quota(over) {
        Ok(()) => {}
        Err(reply) => return reply,
    }
    let Ok(location) = blob_location(alloc, name, &digest) else {
        return Err(Fault::Memory);
    };
    let finished = holder.finish_staged(name, upload.number, &digest, key);
    after(finished, created_blob(location, digest))
}

/// Ends an upload session with a last chunk that is not refused.
fn close_with<H: Holder>(
    holder: &mut H,
    alloc: Global,
    name: &RepoName,
    upload: Upload,
    digest: Digest,
    size: u64,
    key: u64,
) -> Result<Reply, Fault>
    requires unspent { IsUnspent (H.kept holder.old) }
    requires open { H.is_honest holder.old → IsOpen (H.kept holder.old) name.now upload }
    requires staged { H.is_honest holder.old → IsStaged (H.kept holder.old) key }
    requires verified { is_verified digest ≡ true }
    requires fits { upload.size + size ≤ largest_blob }
    requires counted { H.is_honest holder.old → size ≡ length (staged_in (H.kept holder.old) key) }
    ensures comes { H.is_honest holder.new → OperatesStaged result name.now
        (λ t r. finish_with r name.now upload.number digest (bytes_so_far r upload.number ++ t)) key
        (H.kept holder.old) (H.kept holder.new) }
    ensures answers { Answers result }
    ensures carries { Carries result }
    ensures spends { Spends result (H.kept holder.old) (H.kept holder.new) }
    ensures honest { H.is_honest holder.new → H.is_honest holder.old }
{
    let Some(verdict) = holder.verdict_behind(name, upload.number, &digest, key)? else {
        return Err(Fault::Memory);
    };
    match verdict {
        Verdict::Matches => finish(holder, alloc, name, upload, digest, size, key),
        Verdict::Differs | Verdict::Unsupported => Ok(Reply::refusal(Refusal::DigestMismatch)),
    }
}

/// PUT: ends an upload session, with the bytes that are staged as the last chunk, and adds its bytes as a
/// blob (OCI Distribution Specification 1.1, Pushing blobs). A refused request leaves the session as it was.
/// Where nothing is staged it gives up with `Fault::Memory`.
pub fn close_staged_session<H: Holder>(
    holder: &mut H,
    alloc: Global,
    name: &RepoName,
    reference: &str,
    digest: Option<&str>,
    range: Option<&[u8]>,
    key: u64,
) -> Result<Reply, Fault>
    requires unspent { IsUnspent (H.kept holder.old) }
    requires there { H.is_honest holder.old → HasRepo (H.kept holder.old) name.now }
    ensures comes { H.is_honest holder.new → OperatesStaged result name.now
        (λ t r. sessions.close_session r name.now reference.now (text_in digest.entry) (text_in range.entry)
        t) key (H.kept holder.old) (H.kept holder.new) }
    ensures answers { Answers result }
    ensures carries { Carries result }
    ensures spends { Spends result (H.kept holder.old) (H.kept holder.new) }
    ensures honest { H.is_honest holder.new → H.is_honest holder.old }
{
    let upload = match found_or(find_upload(holder, name, reference), Refusal::UploadUnknown) {
        Ok(upload) => upload,
        Err(reply) => return reply,
    };
    let verifiable = match found_or(given_digest(alloc, digest), Refusal::InvalidDigest) {
        Ok(digest) => digest,
        Err(reply) => return reply,
    };
    let Some(sum) = holder.staged(key)? else {
        return Err(Fault::Memory);
    };
    let verdict = last_verdict(range, upload.size, sum.size);
    match chunk_refusal(alloc, name, upload, verdict, sum.size) {
        Err(_) => Err(Fault::Memory),
        Ok(Some(refusal)) => Ok(refusal),
        Ok(None) => close_with(holder, alloc, name, upload, verifiable, sum.size, key),
    }
}
