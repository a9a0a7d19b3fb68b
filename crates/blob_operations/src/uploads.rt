//! Upload sessions of a repository that is there: opening one, its status, and a chunk.

ghost use Rattle.std.specs.Prelude.{◌≡◌, ◌≤◌, ◌+◌, nat_lt, length, IfOk, IfSome, option_map};
ghost use Rattle.registry_model.specs.Limits.{largest_blob};
ghost use Rattle.registry_model.specs.Answer.{answer_of};
ghost use Rattle.registry_model.specs.Ask.{text_in};
ghost use Rattle.registry_model.specs.Doing.{course_of_answer, answered};
ghost use Rattle.registry_model.specs.Keeping.{Spends};
ghost use Rattle.registry_model.specs.Sessions as sessions;
ghost use Rattle.operation_parts.specs.Operating.{Operates, IsUnspent, HasRepo, Answers, Carries};
ghost use Rattle.blob_operations.specs.Uploads.{upload_at, next_number_at, chunk_refusal, append_more, IsOpen};
ghost use Rattle.operation_parts.specs.Finding.{Finds};

use oci_types::{Fault, RepoName, session_number};
use operation_parts::early::{after, found_or, within_quota};
use operation_parts::quota::goes_over;
use operation_parts::replies::{out_of_order, session_reply};
use registry_model::{
    Keeper, LARGEST_BLOB, LARGEST_SESSION_NUMBER, MOST_SESSIONS, RangeVerdict, Refusal, Reply,
    Status, range_fits,
};
use std::alloc::{AllocError, Global};

/// An open upload session: its number, and how many bytes it has.
#[derive(Clone, Copy)]
pub struct Upload {
    pub number: u64,
    pub size: u64,
}

/// The open upload session whose number the text is. Reads no byte of it.
pub fn find_upload<K: Keeper>(
    keeper: &mut K,
    name: &RepoName,
    reference: &str,
) -> Result<Option<Upload>, Fault>
    requires unspent { IsUnspent (K.kept keeper.old) }
    ensures found { K.is_honest keeper.new →
        Finds result (λ w. upload_at w name.now reference.now) (K.kept keeper.old) (K.kept keeper.new) }
    ensures spends { Spends result (K.kept keeper.old) (K.kept keeper.new) }
    ensures honest { K.is_honest keeper.new → K.is_honest keeper.old }
{
    let Some(number) = session_number(reference) else {
        return Ok(None);
    };
    match keeper.session_size(name, number)? {
        None => Ok(None),
        Some(size) => Ok(Some(Upload { number, size })),
    }
}

/// The number that the next upload session gets; `None` where no more can be opened.
fn next_number<K: Keeper>(keeper: &mut K, name: &RepoName) -> Result<Option<u64>, Fault>
    ensures found { K.is_honest keeper.new →
        Finds result (λ w. next_number_at w name.now) (K.kept keeper.old) (K.kept keeper.new) }
    ensures spends { Spends result (K.kept keeper.old) (K.kept keeper.new) }
    ensures honest { K.is_honest keeper.new → K.is_honest keeper.old }
{
    let open = keeper.sessions_open(name)?;
    let last = keeper.last_number(name)?;
    if open >= MOST_SESSIONS || last >= LARGEST_SESSION_NUMBER {
        Ok(None)
    } else {
        Ok(Some(last + 1))
    }
}

/// POST: opens an upload session (OCI Distribution Specification 1.1, Pushing blobs). The number that
/// it gets is known beforehand, so the reply is made before the write.
pub fn open_session<K: Keeper>(
    keeper: &mut K,
    alloc: Global,
    name: &RepoName,
) -> Result<Reply, Fault>
    requires unspent { IsUnspent (K.kept keeper.old) }
    requires there { K.is_honest keeper.old → HasRepo (K.kept keeper.old) name.now }
    ensures comes { K.is_honest keeper.new → Operates result name.now
        (λ r. sessions.open_session r name.now) (K.kept keeper.old) (K.kept keeper.new) }
    ensures answers { Answers result }
    ensures carries { Carries result }
    ensures spends { Spends result (K.kept keeper.old) (K.kept keeper.new) }
    ensures honest { K.is_honest keeper.new → K.is_honest keeper.old }
{
    let number = match found_or(next_number(keeper, name), Refusal::TooManyUploads) {
        Ok(number) => number,
        Err(reply) => return reply,
    };
    let Ok(reply) = session_reply(alloc, Status::Accepted, name, number, 0) else {
        return Err(Fault::Memory);
    };
    after(keeper.open_session(name), reply)
}

/// GET or HEAD: how far an upload session is (OCI Distribution Specification 1.1, Pushing a blob in
/// chunks).
pub fn read_session<K: Keeper>(
    keeper: &mut K,
    alloc: Global,
    name: &RepoName,
    reference: &str,
) -> Result<Reply, Fault>
    requires unspent { IsUnspent (K.kept keeper.old) }
    requires there { K.is_honest keeper.old → HasRepo (K.kept keeper.old) name.now }
    ensures comes { K.is_honest keeper.new → Operates result name.now
        (λ r. sessions.read_session r name.now reference.now) (K.kept keeper.old) (K.kept keeper.new) }
    ensures answers { Answers result }
    ensures carries { Carries result }
    ensures spends { Spends result (K.kept keeper.old) (K.kept keeper.new) }
    ensures honest { K.is_honest keeper.new → K.is_honest keeper.old }
{
    let upload = match found_or(find_upload(keeper, name, reference), Refusal::UploadUnknown) {
        Ok(upload) => upload,
        Err(reply) => return reply,
    };
    match session_reply(alloc, Status::NoContent, name, upload.number, upload.size) {
        Ok(reply) => Ok(reply),
        Err(_) => Err(Fault::Memory),
    }
}

/// Whether so many bytes and so many more are more than a blob's.
fn too_large(size: u64, more: u64) -> bool
    ensures { result ≡ nat_lt largest_blob (size + more) }
{
    size > LARGEST_BLOB || more > LARGEST_BLOB - size
}

/// Why a chunk of `length` bytes is refused, by the verdict on its range, and then by the session's
/// length after it; `None` where it is not.
pub fn chunk_refusal(
    alloc: Global,
    name: &RepoName,
    upload: Upload,
    verdict: RangeVerdict,
    length: u64,
) -> Result<Option<Reply>, AllocError>
    ensures refusal { IfOk result
        (λ refusal. option_map answer_of refusal ≡ chunk_refusal verdict name.now upload length) }
    ensures answers { IfOk result (λ refusal.
        IfSome refusal (λ reply. course_of_answer (answer_of reply) ≡ answered)) }
{
    match verdict {
        RangeVerdict::Malformed => Ok(Some(Reply::refusal(Refusal::InvalidRange))),
        RangeVerdict::OutOfOrder => match out_of_order(alloc, name, upload.number, upload.size) {
            Ok(reply) => Ok(Some(reply)),
            Err(error) => Err(error),
        },
        RangeVerdict::Unequal => Ok(Some(Reply::refusal(Refusal::RangeLength))),
        RangeVerdict::Fits => {
            if too_large(upload.size, length) {
                Ok(Some(Reply::refusal(Refusal::ContentTooLarge)))
            } else {
                Ok(None)
            }
        }
    }
}

/// Puts a chunk that is not refused behind an upload session's bytes, where the quota allows it.
fn append<K: Keeper>(
    keeper: &mut K,
    alloc: Global,
    name: &RepoName,
    upload: Upload,
    body: &[u8],
) -> Result<Reply, Fault>
    requires unspent { IsUnspent (K.kept keeper.old) }
    requires open { K.is_honest keeper.old → IsOpen (K.kept keeper.old) name.now upload }
    requires fits { upload.size + length body.now ≤ largest_blob }
    ensures comes { K.is_honest keeper.new → Operates result name.now
        (λ r. append_more r name.now upload.number body.now) (K.kept keeper.old) (K.kept keeper.new) }
    ensures answers { Answers result }
    ensures carries { Carries result }
    ensures spends { Spends result (K.kept keeper.old) (K.kept keeper.new) }
    ensures honest { K.is_honest keeper.new → K.is_honest keeper.old }
{
    let length = body.len() as u64;
    match within_quota(goes_over(keeper, name, length, 0)) {
        Ok(()) => {}
        Err(reply) => return reply,
    }
    let size = upload.size + length;
    let Ok(reply) = session_reply(alloc, Status::Accepted, name, upload.number, size) else {
        return Err(Fault::Memory);
    };
    after(keeper.append(name, upload.number, body, None), reply)
}

/// PATCH: puts a chunk behind the bytes of an upload session (OCI Distribution Specification 1.1,
/// Pushing a blob in chunks). A refused chunk leaves the session as it was.
pub fn append_chunk<K: Keeper>(
    keeper: &mut K,
    alloc: Global,
    name: &RepoName,
    reference: &str,
    range: Option<&[u8]>,
    body: &[u8],
) -> Result<Reply, Fault>
    requires unspent { IsUnspent (K.kept keeper.old) }
    requires there { K.is_honest keeper.old → HasRepo (K.kept keeper.old) name.now }
    ensures comes { K.is_honest keeper.new → Operates result name.now
        (λ r. sessions.append_chunk r name.now reference.now (text_in range.entry) body.now)
        (K.kept keeper.old) (K.kept keeper.new) }
    ensures answers { Answers result }
    ensures carries { Carries result }
    ensures spends { Spends result (K.kept keeper.old) (K.kept keeper.new) }
    ensures honest { K.is_honest keeper.new → K.is_honest keeper.old }
{
    let upload = match found_or(find_upload(keeper, name, reference), Refusal::UploadUnknown) {
        Ok(upload) => upload,
        Err(reply) => return reply,
    };
    let length = body.len() as u64;
    let verdict = range_fits(range, upload.size, length);
    match chunk_refusal(alloc, name, upload, verdict, length) {
        Err(_) => Err(Fault::Memory),
        Ok(Some(refusal)) => Ok(refusal),
        Ok(None) => append(keeper, alloc, name, upload, body),
    }
}
