//! The end of an upload session: its bytes become a blob.

ghost use Rattle.std.specs.Prelude.{◌≡◌, ◌==◌, ◌≤◌, ◌+◌, ◌++◌, true, length, if◌then◌else◌, MatchResult};
ghost use Rattle.oci_types.specs.Digest.{is_verified};
ghost use Rattle.registry_model.specs.Limits.{largest_blob};
ghost use Rattle.registry_model.specs.Ask.{text_in};
ghost use Rattle.registry_model.specs.Keeping.{Spends};
ghost use Rattle.registry_model.specs.Sessions as sessions;
ghost use Rattle.registry_model.specs.Range.{range_verdict};
ghost use Rattle.operation_parts.specs.Operating.{Operates, IsUnspent, HasRepo, Answers, Carries};
ghost use Rattle.blob_operations.specs.Uploads.{bytes_so_far, finish_with, given_digest, IsOpen};

use crate::uploads::{Upload, chunk_refusal, find_upload};
use oci_types::{Digest, Fault, RepoName};
use operation_parts::digests::{has_digest, verifiable_digest};
use operation_parts::early::{after, found_or, within_quota};
use operation_parts::quota::blob_goes_over;
use operation_parts::replies::{blob_location, created_blob};
use registry_model::{Keeper, LARGEST_BLOB, RangeVerdict, Refusal, Reply, range_fits};
use std::alloc::Global;

/// The verdict on the range of a last chunk of `more` bytes, behind `size`; an empty one has no range to look
/// at (profile).
pub fn last_verdict(range: Option<&[u8]>, size: u64, more: u64) -> RangeVerdict
    ensures { result ≡ (if more == 0 then RangeVerdict.Fits
        else range_verdict (text_in range.entry) size more) }
{
    if more == 0 {
        RangeVerdict::Fits
    } else {
        range_fits(range, size, more)
    }
}

/// Ends an upload session whose whole bytes are these, where they match the digest and the quota
/// allows it.
fn finish<K: Keeper>(
    keeper: &mut K,
    alloc: Global,
    name: &RepoName,
    upload: Upload,
    digest: Digest,
    bytes: &[u8],
) -> Result<Reply, Fault>
    requires unspent { IsUnspent (K.kept keeper.old) }
    requires open { K.is_honest keeper.old → IsOpen (K.kept keeper.old) name.now upload }
    requires verified { is_verified digest ≡ true }
    requires fits { K.is_honest keeper.old → length bytes.now ≤ largest_blob }
    ensures comes { K.is_honest keeper.new → Operates result name.now
        (λ r. finish_with r name.now upload.number digest bytes.now)
        (K.kept keeper.old) (K.kept keeper.new) }
    ensures answers { Answers result }
    ensures carries { Carries result }
    ensures spends { Spends result (K.kept keeper.old) (K.kept keeper.new) }
    ensures honest { K.is_honest keeper.new → K.is_honest keeper.old }
{
    let length = bytes.len() as u64;
    if length > LARGEST_BLOB {
        return Ok(Reply::refusal(Refusal::ContentTooLarge));
    }
    if !has_digest(&digest, bytes) {
        return Ok(Reply::refusal(Refusal::DigestMismatch));
    }
    let over = blob_goes_over(keeper, name, &digest, length, upload.size);
    match within_quota(over) {
        Ok(()) => {}
        Err(reply) => return reply,
    }
    let Ok(location) = blob_location(alloc, name, &digest) else {
        return Err(Fault::Memory);
    };
    let finished = keeper.finish(name, upload.number, &digest, bytes);
    after(finished, created_blob(location, digest))
}

/// Ends an upload session with a last chunk that is not refused, from the session's bytes, which are read
/// once.
fn close_read<K: Keeper>(
    keeper: &mut K,
    alloc: Global,
    name: &RepoName,
    upload: Upload,
    digest: Digest,
    body: &[u8],
) -> Result<Reply, Fault>
    requires unspent { IsUnspent (K.kept keeper.old) }
    requires open { K.is_honest keeper.old → IsOpen (K.kept keeper.old) name.now upload }
    requires verified { is_verified digest ≡ true }
    requires fits { upload.size + length body.now ≤ largest_blob }
    ensures comes { K.is_honest keeper.new → Operates result name.now
        (λ r. finish_with r name.now upload.number digest (bytes_so_far r upload.number ++ body.now))
        (K.kept keeper.old) (K.kept keeper.new) }
    ensures answers { Answers result }
    ensures carries { Carries result }
    ensures spends { Spends result (K.kept keeper.old) (K.kept keeper.new) }
    ensures honest { K.is_honest keeper.new → K.is_honest keeper.old }
{
    let held = keeper.session(alloc, name, upload.number);
    let mut bytes = match found_or(held, Refusal::UploadUnknown) {
        Ok(bytes) => bytes,
        Err(reply) => return reply,
    };
    let Ok(()) = bytes.extend_from_slice(body) else {
        return Err(Fault::Memory);
    };
    finish(keeper, alloc, name, upload, digest, bytes.as_slice())
}

/// Ends an upload session with a last chunk that is not refused. Where the session has no bytes the chunk is
/// all, and is not copied. Where the chunk is empty, and the keeper knows unread that the digest is that of
/// the session's bytes, none is read: the blob takes no more room than the session had, which no quota
/// refuses.
fn close_with<K: Keeper>(
    keeper: &mut K,
    alloc: Global,
    name: &RepoName,
    upload: Upload,
    digest: Digest,
    body: &[u8],
) -> Result<Reply, Fault>
    requires unspent { IsUnspent (K.kept keeper.old) }
    requires open { K.is_honest keeper.old → IsOpen (K.kept keeper.old) name.now upload }
    requires verified { is_verified digest ≡ true }
    requires fits { upload.size + length body.now ≤ largest_blob }
    ensures comes { K.is_honest keeper.new → Operates result name.now
        (λ r. finish_with r name.now upload.number digest (bytes_so_far r upload.number ++ body.now))
        (K.kept keeper.old) (K.kept keeper.new) }
    ensures answers { Answers result }
    ensures carries { Carries result }
    ensures spends { Spends result (K.kept keeper.old) (K.kept keeper.new) }
    ensures honest { K.is_honest keeper.new → K.is_honest keeper.old }
{
    if upload.size == 0 {
        return finish(keeper, alloc, name, upload, digest, body);
    }
    if !body.is_empty() {
        return close_read(keeper, alloc, name, upload, digest, body);
    }
    let Ok(location) = blob_location(alloc, name, &digest) else {
        return Err(Fault::Memory);
    };
    if keeper.finish_known(name, upload.number, &digest)? {
        return Ok(created_blob(location, digest));
    }
    close_read(keeper, alloc, name, upload, digest, body)
}

/// The digest that is given, where bytes can be verified against it.
pub fn given_digest(alloc: Global, digest: Option<&str>) -> Result<Option<Digest>, Fault>
    ensures { MatchResult result (λ found. found ≡ given_digest (text_in digest.entry))
        (λ fault. fault ≡ Fault.Memory) }
{
    match digest {
        Some(text) => verifiable_digest(alloc, text),
        None => Ok(None),
    }
}

/// PUT: ends an upload session, with a last chunk or none, and adds its bytes as a blob (OCI
/// Distribution Specification 1.1, Pushing blobs). A refused request leaves the session as it was.
pub fn close_session<K: Keeper>(
    keeper: &mut K,
    alloc: Global,
    name: &RepoName,
    reference: &str,
    digest: Option<&str>,
    range: Option<&[u8]>,
    body: &[u8],
) -> Result<Reply, Fault>
    requires unspent { IsUnspent (K.kept keeper.old) }
    requires there { K.is_honest keeper.old → HasRepo (K.kept keeper.old) name.now }
    ensures comes { K.is_honest keeper.new → Operates result name.now
        (λ r. sessions.close_session r name.now reference.now (text_in digest.entry) (text_in range.entry)
        body.now) (K.kept keeper.old) (K.kept keeper.new) }
    ensures answers { Answers result }
    ensures carries { Carries result }
    ensures spends { Spends result (K.kept keeper.old) (K.kept keeper.new) }
    ensures honest { K.is_honest keeper.new → K.is_honest keeper.old }
{
    let upload = match found_or(find_upload(keeper, name, reference), Refusal::UploadUnknown) {
        Ok(upload) => upload,
        Err(reply) => return reply,
    };
    let verifiable = match found_or(given_digest(alloc, digest), Refusal::InvalidDigest) {
        Ok(digest) => digest,
        Err(reply) => return reply,
    };
    let more = body.len() as u64;
    let verdict = last_verdict(range, upload.size, more);
    match chunk_refusal(alloc, name, upload, verdict, more) {
        Err(_) => Err(Fault::Memory),
        Ok(Some(refusal)) => Ok(refusal),
        Ok(None) => close_with(keeper, alloc, name, upload, verifiable, body),
    }
}
