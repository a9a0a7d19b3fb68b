//! Replies that carry texts of their own. Each is made whole before what it tells is written.

ghost use Rattle.registry_model.specs.Heads.{is_sent};
ghost use Rattle.std.specs.Prelude.{◌≡◌, true, ◌++◌, ℕ, List, Some, IfOk, codes, string_bytes};
ghost use Rattle.registry_model.specs.Answer.{answer_of, bare_answer, content_of};
ghost use Rattle.registry_model.specs.declared.reply.Status.TheVariants.{OK, Created};
ghost use Rattle.registry_model.specs.Blobs.{blob_location, created_blob};
ghost use Rattle.registry_model.specs.Manifests.{manifest_location};
ghost use Rattle.registry_model.specs.Sessions.{session_location, session_range, session_reply, refuses_order};

use oci_types::{Digest, RepoName};
use registry_model::{Body, Refusal, Reply, Status};
use std::alloc::{AllocError, Global};

/// Where something is fetched from the repository, by its digest.
fn location(
    alloc: Global,
    name: &RepoName,
    place: &str,
    digest: &Digest,
) -> Result<String, AllocError>
    ensures { IfOk result (λ s. string_bytes s ≡ codes "/v2/" ++ name.now ++ place.now ++ digest.now) }
{
    let mut location = String::from_str(alloc, "/v2/")?;
    location.push_str(name.as_str())?;
    location.push_str(place)?;
    location.push_str(digest.as_str())?;
    Ok(location)
}

/// Where a blob is fetched.
pub fn blob_location(alloc: Global, name: &RepoName, digest: &Digest) -> Result<String, AllocError>
    ensures { IfOk result (λ s. string_bytes s ≡ blob_location name.now digest.now) }
{
    location(alloc, name, "/blobs/", digest)
}

/// Where a manifest is fetched.
pub fn manifest_location(
    alloc: Global,
    name: &RepoName,
    digest: &Digest,
) -> Result<String, AllocError>
    ensures { IfOk result (λ s. string_bytes s ≡ manifest_location name.now digest.now) }
{
    location(alloc, name, "/manifests/", digest)
}

/// The reply of a blob that was added and is fetched at the location (OCI Distribution Specification
/// 1.1, Pushing blobs). Takes no memory.
pub fn created_blob(location: String, digest: Digest) -> Reply
    ensures shown { (name : List ℕ) → string_bytes location ≡ blob_location name digest →
        answer_of result ≡ created_blob name digest }
    ensures carries { is_sent (answer_of result).body ≡ true }
{
    Reply::bare(Status::Created)
        .with_location(location)
        .with_digest(digest)
}

/// The reply of a manifest that was kept and is fetched at the location. Takes no memory.
pub fn created_manifest(location: String, digest: Digest, subject: Option<Digest>) -> Reply
    ensures { answer_of result ≡ record (bare_answer Created) {
      location = Some (string_bytes location);
      digest = Some digest;
      subject = subject;
    } }
{
    let mut reply = Reply::bare(Status::Created)
        .with_location(location)
        .with_digest(digest);
    reply.subject = subject;
    reply
}

/// The reply that has what is kept under the digest, or its length.
pub fn found(digest: Digest, content_type: &'static str, body: Body) -> Reply
    ensures { answer_of result ≡ record (bare_answer OK) {
      digest = Some digest;
      content_type = Some content_type.now;
      body = content_of body;
    } }
{
    Reply::bare(Status::OK)
        .with_digest(digest)
        .with_content(content_type, body)
}

/// Where an upload session goes on.
fn session_location(alloc: Global, name: &str, number: u64) -> Result<String, AllocError>
    ensures { IfOk result (λ s. string_bytes s ≡ session_location name.now number) }
{
    let digits = format!(in alloc; "{number}")?;
    let mut location = String::from_str(alloc, "/v2/")?;
    location.push_str(name)?;
    location.push_str("/blobs/uploads/")?;
    location.push_str(digits.as_str())?;
    Ok(location)
}

/// The positions of an upload session's bytes; `0-0` where it is empty (profile).
fn session_range(alloc: Global, size: u64) -> Result<String, AllocError>
    ensures { IfOk result (λ s. string_bytes s ≡ session_range size) }
{
    let last = size.saturating_sub(1);
    format!(in alloc; "0-{last}")
}

/// The reply, and in it where an upload session goes on, and how far it is.
fn tell_session(
    alloc: Global,
    reply: Reply,
    name: &RepoName,
    number: u64,
    size: u64,
) -> Result<Reply, AllocError>
    ensures { IfOk result (λ told. answer_of told ≡ record (answer_of reply) {
      location = Some (session_location name.now number);
      range = Some (session_range size);
    }) }
{
    let location = session_location(alloc, name.as_str(), number)?;
    let range = session_range(alloc, size)?;
    let mut reply = reply.with_location(location);
    reply.range = Some(range);
    Ok(reply)
}

/// The reply that says where an upload session goes on, and how far it is (OCI Distribution
/// Specification 1.1, Pushing a blob in chunks).
pub fn session_reply(
    alloc: Global,
    status: Status,
    name: &RepoName,
    number: u64,
    size: u64,
) -> Result<Reply, AllocError>
    ensures { IfOk result (λ reply. answer_of reply ≡ session_reply status name.now number size) }
{
    tell_session(alloc, Reply::bare(status), name, number, size)
}

/// The refusal of a chunk that does not begin where its upload session ends; it says the same.
pub fn out_of_order(
    alloc: Global,
    name: &RepoName,
    number: u64,
    size: u64,
) -> Result<Reply, AllocError>
    ensures { IfOk result (λ reply. answer_of reply ≡ (refuses_order name.now number size).reply) }
{
    let refusal = Reply::refusal(Refusal::RangeOutOfOrder);
    tell_session(alloc, refusal, name, number, size)
}
