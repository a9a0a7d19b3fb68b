//! PUT of a manifest, by tag and by digest (OCI Distribution Specification 1.1, Pushing Manifests,
//! Pushing Manifests with Subject).

ghost use Rattle.std.specs.Prelude.{◌≡◌, ◌≤◌, true, Option, Some, Ok, IfErr, length};
ghost use Rattle.oci_types.specs.Text.{Text};
ghost use Rattle.oci_types.specs.Digest.{matches, sha256_digest, verdict_of};
ghost use Rattle.oci_types.specs.Manifest.{shown, manifest_in};
ghost use Rattle.registry_model.specs.Limits.{largest_manifest};
ghost use Rattle.registry_model.specs.Ask.{text_in};
ghost use Rattle.registry_model.specs.Keeping.{Kept, Spends};
ghost use Rattle.registry_model.specs.Manifests.{push_manifest};
ghost use Rattle.operation_parts.specs.Operating.{Operates, IsUnspent, HasRepo, Answers, Carries};
ghost use Rattle.manifest_operations.specs.Saying.{Says};
ghost use Rattle.manifest_operations.specs.Push.{has_needs_at, push_typed, kept_answer, Keeps, push_under, push_checked};
ghost use Rattle.operation_parts.specs.Finding.{Finds};

use crate::content_type::content_type_fits;
use oci_documents::read_manifest;
use oci_types::{
    Digest, Fault, Manifest, ManifestFault, NameFault, Reference, RepoName, Tag, Verdict,
};
use operation_parts::quota::manifest_goes_over;
use operation_parts::replies::{created_manifest, manifest_location};
use registry_model::{Keeper, LARGEST_MANIFEST, Refusal, Reply};
use std::alloc::Global;

/// Whether every needed blob is in the repository. Reads no blob.
fn has_needs<K: Keeper>(keeper: &mut K, name: &RepoName, needs: &[Digest]) -> Result<bool, Fault>
    requires unspent { IsUnspent (K.kept keeper.old) }
    ensures found { K.is_honest keeper.new →
        Finds result (λ w. has_needs_at w name.now needs.now) (K.kept keeper.old) (K.kept keeper.new) }
    ensures spends { Spends result (K.kept keeper.old) (K.kept keeper.new) }
    ensures honest { K.is_honest keeper.new → K.is_honest keeper.old }
{
    for digest in needs {
        if keeper.blob_size(name, digest)?.is_none() {
            return Ok(false);
        }
    }
    Ok(true)
}

/// Keeps a manifest that was read, if the content type is that of its kind, and sets the tag to it, if one
/// is given: where it is fetched, or why it is refused. The reply's memory is taken before the write.
fn keep<K: Keeper>(
    keeper: &mut K,
    alloc: Global,
    name: &RepoName,
    digest: &Digest,
    tag: Option<&Tag>,
    content_type: Option<&[u8]>,
    body: &[u8],
    manifest: &Manifest,
) -> Result<Result<String, Refusal>, Fault>
    requires unspent { IsUnspent (K.kept keeper.old) }
    requires there { K.is_honest keeper.old → HasRepo (K.kept keeper.old) name.now }
    requires matching { matches digest.now body.now ≡ true }
    requires reads { manifest_in body.now ≡ Ok (shown manifest.now) }
    requires fits { length body.now ≤ largest_manifest }
    ensures comes { K.is_honest keeper.new → Keeps result name.now
        digest.now (text_in tag.entry) (text_in content_type.entry) body.now (shown manifest.now)
        (K.kept keeper.old) (K.kept keeper.new) }
    ensures spends { Spends result (K.kept keeper.old) (K.kept keeper.new) }
    ensures honest { K.is_honest keeper.new → K.is_honest keeper.old }
{
    if !content_type_fits(content_type, manifest.kind) {
        return Ok(Err(Refusal::InvalidManifest));
    }
    if !has_needs(keeper, name, &manifest.needs)? {
        return Ok(Err(Refusal::ManifestBlobUnknown));
    }
    if manifest_goes_over(keeper, name, digest, body.len() as u64)? {
        return Ok(Err(Refusal::QuotaExceeded));
    }
    let Ok(location) = manifest_location(alloc, name, digest) else {
        return Err(Fault::Memory);
    };
    keeper.put_manifest(name, digest, body, manifest, tag)?;
    Ok(Ok(location))
}

fn subject_of(manifest: Manifest) -> Option<Digest>
    ensures { result ≡ (shown manifest).subject }
{
    let Manifest { subject, .. } = manifest;
    subject
}

/// The reply of a manifest that was kept, or of why it was not.
fn kept_reply(
    kept: Result<Result<String, Refusal>, Fault>,
    digest: Digest,
    subject: Option<Digest>,
) -> Result<Reply, Fault>
    ensures { Says (kept_answer digest subject) kept result }
{
    match kept {
        Err(fault) => Err(fault),
        Ok(Err(refusal)) => Ok(Reply::refusal(refusal)),
        Ok(Ok(location)) => Ok(created_manifest(location, digest, subject)),
    }
}

/// The same, and the reply. What a manifest owns is dear to drop at each end, so it has one here.
fn keep_manifest<K: Keeper>(
    keeper: &mut K,
    alloc: Global,
    name: &RepoName,
    digest: Digest,
    tag: Option<&Tag>,
    content_type: Option<&[u8]>,
    body: &[u8],
    manifest: Manifest,
) -> Result<Reply, Fault>
    requires unspent { IsUnspent (K.kept keeper.old) }
    requires there { K.is_honest keeper.old → HasRepo (K.kept keeper.old) name.now }
    requires matching { matches digest body.now ≡ true }
    requires reads { manifest_in body.now ≡ Ok (shown manifest) }
    requires fits { length body.now ≤ largest_manifest }
    ensures comes { K.is_honest keeper.new → Operates result name.now
        (λ r. push_typed r name.now digest (text_in tag.entry) (text_in content_type.entry) body.now
        (shown manifest)) (K.kept keeper.old) (K.kept keeper.new) }
    ensures answers { Answers result }
    ensures carries { Carries result }
    ensures spends { Spends result (K.kept keeper.old) (K.kept keeper.new) }
    ensures honest { K.is_honest keeper.new → K.is_honest keeper.old }
{
    let kept = keep(
        keeper,
        alloc,
        name,
        &digest,
        tag,
        content_type,
        body,
        &manifest,
    );
    kept_reply(kept, digest, subject_of(manifest))
}

/// The push of bytes that match the digest.
fn push_under<K: Keeper>(
    keeper: &mut K,
    alloc: Global,
    name: &RepoName,
    digest: Digest,
    tag: Option<&Tag>,
    content_type: Option<&[u8]>,
    body: &[u8],
) -> Result<Reply, Fault>
    requires unspent { IsUnspent (K.kept keeper.old) }
    requires there { K.is_honest keeper.old → HasRepo (K.kept keeper.old) name.now }
    requires matching { matches digest body.now ≡ true }
    requires fits { length body.now ≤ largest_manifest }
    ensures comes { K.is_honest keeper.new → Operates result name.now
        (λ r. push_under r name.now digest (text_in tag.entry) (text_in content_type.entry) body.now
        (manifest_in body.now)) (K.kept keeper.old) (K.kept keeper.new) }
    ensures answers { Answers result }
    ensures carries { Carries result }
    ensures spends { Spends result (K.kept keeper.old) (K.kept keeper.new) }
    ensures honest { K.is_honest keeper.new → K.is_honest keeper.old }
{
    match read_manifest(alloc, body) {
        Ok(manifest) => keep_manifest(
            keeper,
            alloc,
            name,
            digest,
            tag,
            content_type,
            body,
            manifest,
        ),
        Err(fault) => match fault {
            ManifestFault::Memory => Err(Fault::Memory),
            _ => Ok(Reply::refusal(Refusal::InvalidManifest)),
        },
    }
}

/// The push by tag: under the bytes' sha256 digest.
fn push_by_tag<K: Keeper>(
    keeper: &mut K,
    alloc: Global,
    name: &RepoName,
    tag: &Tag,
    content_type: Option<&[u8]>,
    body: &[u8],
) -> Result<Reply, Fault>
    requires unspent { IsUnspent (K.kept keeper.old) }
    requires there { K.is_honest keeper.old → HasRepo (K.kept keeper.old) name.now }
    requires fits { length body.now ≤ largest_manifest }
    ensures comes { K.is_honest keeper.new → Operates result name.now
        (λ r. push_under r name.now (sha256_digest body.now) (Some tag.now) (text_in content_type.entry)
        body.now (manifest_in body.now)) (K.kept keeper.old) (K.kept keeper.new) }
    ensures answers { Answers result }
    ensures carries { Carries result }
    ensures spends { Spends result (K.kept keeper.old) (K.kept keeper.new) }
    ensures honest { K.is_honest keeper.new → K.is_honest keeper.old }
{
    let Ok(digest) = Digest::of_sha256(alloc, body) else {
        return Err(Fault::Memory);
    };
    push_under(keeper, alloc, name, digest, Some(tag), content_type, body)
}

/// The push by digest: under that digest, if it is that of the bytes.
fn push_by_digest<K: Keeper>(
    keeper: &mut K,
    alloc: Global,
    name: &RepoName,
    digest: Digest,
    content_type: Option<&[u8]>,
    body: &[u8],
) -> Result<Reply, Fault>
    requires unspent { IsUnspent (K.kept keeper.old) }
    requires there { K.is_honest keeper.old → HasRepo (K.kept keeper.old) name.now }
    requires fits { length body.now ≤ largest_manifest }
    ensures comes { K.is_honest keeper.new → Operates result name.now
        (λ r. push_checked r name.now digest (text_in content_type.entry) body.now
        (verdict_of digest body.now)) (K.kept keeper.old) (K.kept keeper.new) }
    ensures answers { Answers result }
    ensures carries { Carries result }
    ensures spends { Spends result (K.kept keeper.old) (K.kept keeper.new) }
    ensures honest { K.is_honest keeper.new → K.is_honest keeper.old }
{
    match digest.verifies(body) {
        Verdict::Unsupported => Ok(Reply::refusal(Refusal::InvalidDigest)),
        Verdict::Differs => Ok(Reply::refusal(Refusal::DigestMismatch)),
        Verdict::Matches => push_under(keeper, alloc, name, digest, None, content_type, body),
    }
}

/// PUT of a manifest in a repository that is there: its bytes are kept as they came, under the digest
/// by which they are pushed, or under their sha256 digest where that is a tag. The body is hashed
/// once.
pub fn push_manifest<K: Keeper>(
    keeper: &mut K,
    alloc: Global,
    name: &RepoName,
    reference: &str,
    content_type: Option<&[u8]>,
    body: &[u8],
) -> Result<Reply, Fault>
    requires unspent { IsUnspent (K.kept keeper.old) }
    requires there { K.is_honest keeper.old → HasRepo (K.kept keeper.old) name.now }
    ensures comes { K.is_honest keeper.new → Operates result name.now
        (λ r. push_manifest r name.now reference.now (text_in content_type.entry) body.now)
        (K.kept keeper.old) (K.kept keeper.new) }
    ensures answers { Answers result }
    ensures carries { Carries result }
    ensures spends { Spends result (K.kept keeper.old) (K.kept keeper.new) }
    ensures honest { K.is_honest keeper.new → K.is_honest keeper.old }
{
    let reference = match Reference::parse(alloc, reference) {
        Ok(reference) => reference,
        Err(fault) => match fault {
            NameFault::Memory => return Err(Fault::Memory),
            _ => return Ok(Reply::refusal(Refusal::InvalidReference)),
        },
    };
    if body.len() as u64 > LARGEST_MANIFEST {
        return Ok(Reply::refusal(Refusal::ContentTooLarge));
    }
    match reference {
        Reference::Tag(tag) => push_by_tag(keeper, alloc, name, &tag, content_type, body),
        Reference::Digest(digest) => push_by_digest(
            keeper,
            alloc,
            name,
            digest,
            content_type,
            body,
        ),
    }
}

/// What refuses the push of a manifest of so many bytes, whatever they are, to a repository that is there.
/// Where nothing does it gives up with `Fault::Memory`.
pub fn refuse_manifest(alloc: Global, reference: &str, size: usize) -> Result<Reply, Fault>
    ensures comes { (k : Kept) (name : Text) (content_type : Option Text) (body : Text)
        → IsUnspent k → HasRepo k name → size ≡ length body → Operates result name
        (λ r. push_manifest r name reference.now content_type body) k k }
    ensures memory { IfErr result (λ fault. fault ≡ Fault.Memory) }
    ensures answers { Answers result }
    ensures carries { Carries result }
{
    match Reference::parse(alloc, reference) {
        Ok(_) => {}
        Err(fault) => match fault {
            NameFault::Memory => return Err(Fault::Memory),
            _ => return Ok(Reply::refusal(Refusal::InvalidReference)),
        },
    }
    if size as u64 > LARGEST_MANIFEST {
        Ok(Reply::refusal(Refusal::ContentTooLarge))
    } else {
        Err(Fault::Memory)
    }
}
