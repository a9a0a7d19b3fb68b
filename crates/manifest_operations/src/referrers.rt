//! Lists of referrers (OCI Distribution Specification 1.1, Listing Referrers). GET writes the list, and HEAD
//! counts the bytes that GET would write.

ghost use Rattle.std.specs.Prelude.{◌≡◌, ◌++◌, List, MatchResult, length, option_map, string_bytes};
ghost use Rattle.oci_types.specs.Referrers.{ReferrerShown, referrer_shown};
ghost use Rattle.oci_documents.specs.Referrers.{Lists};
ghost use Rattle.registry_model.specs.Answer.{answer_of, content_of, sent, unsent};
ghost use Rattle.registry_model.specs.Ask.{text_in};
ghost use Rattle.registry_model.specs.Keeping.{Spends, entries_shown};
ghost use Rattle.registry_model.specs.Referrers.{referrer_in, filter_in, referrers_reply, list_referrers, size_referrers};
ghost use Rattle.operation_parts.specs.Operating.{Operates, IsUnspent, HasRepo, Answers, Carries};
ghost use Rattle.manifest_operations.specs.Referrers.{lets_through, added_by, wanted_line};

use oci_documents::{Length, ReferrersBody, Sink, read_manifest};
use oci_types::{Digest, Fault, Kind, Manifest, ManifestFault, Referrer, RepoName};
use operation_parts::digests::read_digest;
use operation_parts::early::found_or;
use registry_model::{Body, Keeper, Refusal, Reply, Status};
use std::alloc::Global;

/// The artifact type that a query asks for, if it does.
fn filter_in(artifact_type: Option<&str>) -> Option<&str>
    ensures { text_in result ≡ filter_in (text_in artifact_type.entry) }
{
    match artifact_type {
        None => None,
        Some(text) => { if text.is_empty() { None } else { Some(text) } }
    }
}

fn lets_through(wanted: Option<&str>, artifact_type: &Option<String>) -> bool
    ensures { result ≡ lets_through (text_in wanted.entry) (option_map string_bytes artifact_type.now) }
{
    let Some(wanted) = wanted else {
        return true;
    };
    match artifact_type {
        None => false,
        Some(text) => text.as_str() == wanted,
    }
}

/// A manifest as a list of referrers shows it, or `None` where the bytes are none.
fn read_referrer(alloc: Global, digest: Digest, bytes: &[u8]) -> Result<Option<Referrer>, Fault>
    ensures { MatchResult result (λ o. option_map referrer_shown o ≡ referrer_in (digest, bytes.now))
        (λ fault. fault ≡ Fault.Memory) }
{
    match read_manifest(alloc, bytes) {
        Ok(manifest) => {
            let Manifest {
                kind,
                artifact_type,
                annotations,
                ..
            } = manifest;
            Ok(Some(Referrer {
                digest,
                kind,
                size: bytes.len() as u64,
                artifact_type,
                annotations,
            }))
        }
        Err(fault) => match fault {
            ManifestFault::Memory => Err(Fault::Memory),
            _ => Ok(None),
        },
    }
}

/// Writes a referrer, if there is one and the filter lets it through.
fn add_wanted<S: Sink>(
    body: &mut ReferrersBody<S>,
    wanted: Option<&str>,
    referrer: Option<Referrer>,
) -> Result<(), Fault>
    ensures { MatchResult result
        (λ _. (rs : List ReferrerShown) → Lists S.took body.old rs
        → Lists S.took body.new
        (rs ++ added_by (text_in wanted.entry) (option_map referrer_shown referrer)))
        (λ fault. fault ≡ Fault.Memory) }
{
    let Some(referrer) = referrer else {
        return Ok(());
    };
    if !lets_through(wanted, &referrer.artifact_type) {
        return Ok(());
    }
    body.add(&referrer)
}

/// Writes the list of the referrers among manifests, without those that the filter keeps back. Of the
/// manifests and of what is read of them, one at a time is held besides what is still to be read.
fn write_referrers<S: Sink>(
    alloc: Global,
    manifests: Vec<(Digest, Vec<u8>)>,
    wanted: Option<&str>,
) -> Result<S, Fault>
    ensures { MatchResult result
        (λ out. S.took out (wanted_line (text_in wanted.entry) (entries_shown manifests)))
        (λ fault. fault ≡ Fault.Memory) }
{
    let mut body = ReferrersBody::begin(alloc)?;
    for (digest, bytes) in manifests {
        let referrer = read_referrer(alloc, digest, &bytes)?;
        add_wanted(&mut body, wanted, referrer)?;
    }
    body.end()
}

/// The reply with this body; it names the filter, if there is one.
fn referrers_reply(wanted: Option<&str>, body: Body) -> Reply
    ensures { answer_of result ≡ referrers_reply (text_in wanted.entry) (content_of body) }
{
    let filters = match wanted {
        None => None,
        Some(_) => Some("artifactType"),
    };
    let mut reply = Reply::bare(Status::OK).with_content(Kind::Index.media_type(), body);
    reply.filters = filters;
    reply
}

/// The reply that lists the referrers among manifests.
fn text_reply(
    alloc: Global,
    manifests: Vec<(Digest, Vec<u8>)>,
    wanted: Option<&str>,
) -> Result<Reply, Fault>
    ensures { MatchResult result
        (λ reply. answer_of reply ≡ referrers_reply (text_in wanted.entry)
        (sent (wanted_line (text_in wanted.entry) (entries_shown manifests))))
        (λ fault. fault ≡ Fault.Memory) }
{
    let text: Vec<u8> = write_referrers(alloc, manifests, wanted)?;
    Ok(referrers_reply(wanted, Body::Owned(text)))
}

/// The same with the length of the list in the place of the list, of which nothing is made.
fn size_reply(
    alloc: Global,
    manifests: Vec<(Digest, Vec<u8>)>,
    wanted: Option<&str>,
) -> Result<Reply, Fault>
    ensures { MatchResult result
        (λ reply. answer_of reply ≡ referrers_reply (text_in wanted.entry)
        (unsent (length (wanted_line (text_in wanted.entry) (entries_shown manifests)))))
        (λ fault. fault ≡ Fault.Memory) }
{
    let length: Length = write_referrers(alloc, manifests, wanted)?;
    Ok(referrers_reply(wanted, Body::Unsent(length.bytes)))
}

/// The manifests of a repository that is there whose subject is the digest, there or not, of the
/// artifact type that is asked for.
pub fn list_referrers<K: Keeper>(
    keeper: &mut K,
    alloc: Global,
    name: &RepoName,
    digest: &str,
    artifact_type: Option<&str>,
) -> Result<Reply, Fault>
    requires unspent { IsUnspent (K.kept keeper.old) }
    requires there { K.is_honest keeper.old → HasRepo (K.kept keeper.old) name.now }
    ensures comes { K.is_honest keeper.new → Operates result name.now
        (λ r. list_referrers r digest.now (text_in artifact_type.entry))
        (K.kept keeper.old) (K.kept keeper.new) }
    ensures answers { Answers result }
    ensures carries { Carries result }
    ensures spends { Spends result (K.kept keeper.old) (K.kept keeper.new) }
    ensures honest { K.is_honest keeper.new → K.is_honest keeper.old }
{
    let digest = match found_or(read_digest(alloc, digest), Refusal::InvalidDigest) {
        Ok(digest) => digest,
        Err(reply) => return reply,
    };
    let manifests = keeper.manifests_of_subject(alloc, name, &digest)?;
    text_reply(alloc, manifests, filter_in(artifact_type))
}

/// HEAD of the same: the length of the list, of which nothing is made.
pub fn size_referrers<K: Keeper>(
    keeper: &mut K,
    alloc: Global,
    name: &RepoName,
    digest: &str,
    artifact_type: Option<&str>,
) -> Result<Reply, Fault>
    requires unspent { IsUnspent (K.kept keeper.old) }
    requires there { K.is_honest keeper.old → HasRepo (K.kept keeper.old) name.now }
    ensures comes { K.is_honest keeper.new → Operates result name.now
        (λ r. size_referrers r digest.now (text_in artifact_type.entry))
        (K.kept keeper.old) (K.kept keeper.new) }
    ensures answers { Answers result }
    ensures spends { Spends result (K.kept keeper.old) (K.kept keeper.new) }
    ensures honest { K.is_honest keeper.new → K.is_honest keeper.old }
{
    let digest = match found_or(read_digest(alloc, digest), Refusal::InvalidDigest) {
        Ok(digest) => digest,
        Err(reply) => return reply,
    };
    let counted = keeper.manifests_of_subject(alloc, name, &digest)?;
    size_reply(alloc, counted, filter_in(artifact_type))
}
