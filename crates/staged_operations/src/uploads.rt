//! A chunk of an upload session whose bytes are staged.

ghost use Rattle.std.specs.Prelude.{◌≡◌, ◌≤◌, ◌+◌, length};
ghost use Rattle.registry_model.specs.Limits.{largest_blob};
ghost use Rattle.registry_model.specs.Ask.{text_in};
ghost use Rattle.registry_model.specs.Keeping.{Spends};
ghost use Rattle.registry_model.specs.Sessions as sessions;
ghost use Rattle.operation_parts.specs.Operating.{IsUnspent, HasRepo, Answers, Carries};
ghost use Rattle.blob_operations.specs.Uploads.{append_more, IsOpen};
ghost use Rattle.staged_operations.specs.Staging.{staged_in, IsStaged, OperatesStaged};

use blob_operations::uploads::{Upload, chunk_refusal, find_upload};
use oci_types::{Fault, RepoName};
use operation_parts::early::{after, found_or, within_quota};
use operation_parts::quota::goes_over;
use operation_parts::replies::session_reply;
use registry_holding::Holder;
use registry_model::{Refusal, Reply, Status, range_fits};
use std::alloc::Global;

/// Puts the bytes that are staged behind an upload session's, where the quota allows it.
fn append<H: Holder>(
    holder: &mut H,
    alloc: Global,
    name: &RepoName,
    upload: Upload,
    size: u64,
    key: u64,
) -> Result<Reply, Fault>
    requires unspent { IsUnspent (H.kept holder.old) }
    requires open { H.is_honest holder.old → IsOpen (H.kept holder.old) name.now upload }
    requires staged { H.is_honest holder.old → IsStaged (H.kept holder.old) key }
    requires fits { upload.size + size ≤ largest_blob }
    requires counted { H.is_honest holder.old → size ≡ length (staged_in (H.kept holder.old) key) }
    ensures comes { H.is_honest holder.new → OperatesStaged result name.now
        (λ t r. append_more r name.now upload.number t) key (H.kept holder.old) (H.kept holder.new) }
    ensures answers { Answers result }
    ensures carries { Carries result }
    ensures spends { Spends result (H.kept holder.old) (H.kept holder.new) }
    ensures honest { H.is_honest holder.new → H.is_honest holder.old }
{
    match within_quota(goes_over(holder, name, size, 0)) {
        Ok(()) => {}
        Err(reply) => return reply,
    }
    let total = upload.size + size;
    let Ok(reply) = session_reply(alloc, Status::Accepted, name, upload.number, total) else {
        return Err(Fault::Memory);
    };
    after(holder.append_staged(name, upload.number, key), reply)
}

/// PATCH: puts the bytes that are staged behind those of an upload session (OCI Distribution Specification
/// 1.1, Pushing a blob in chunks). A refused chunk leaves the session as it was. Where nothing is staged it
/// gives up with `Fault::Memory`.
pub fn append_staged_chunk<H: Holder>(
    holder: &mut H,
    alloc: Global,
    name: &RepoName,
    reference: &str,
    range: Option<&[u8]>,
    key: u64,
) -> Result<Reply, Fault>
    requires unspent { IsUnspent (H.kept holder.old) }
    requires there { H.is_honest holder.old → HasRepo (H.kept holder.old) name.now }
    ensures comes { H.is_honest holder.new → OperatesStaged result name.now
        (λ t r. sessions.append_chunk r name.now reference.now (text_in range.entry) t) key
        (H.kept holder.old) (H.kept holder.new) }
    ensures answers { Answers result }
    ensures carries { Carries result }
    ensures spends { Spends result (H.kept holder.old) (H.kept holder.new) }
    ensures honest { H.is_honest holder.new → H.is_honest holder.old }
{
    let upload = match found_or(find_upload(holder, name, reference), Refusal::UploadUnknown) {
        Ok(upload) => upload,
        Err(reply) => return reply,
    };
    let Some(sum) = holder.staged(key)? else {
        return Err(Fault::Memory);
    };
    let verdict = range_fits(range, upload.size, sum.size);
    match chunk_refusal(alloc, name, upload, verdict, sum.size) {
        Err(_) => Err(Fault::Memory),
        Ok(Some(refusal)) => Ok(refusal),
        Ok(None) => append(holder, alloc, name, upload, sum.size, key),
    }
}
