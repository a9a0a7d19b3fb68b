//! Whether what is kept under a digest is what it says.
ghost use Rattle.std.specs.Prelude.{◌≡◌, MatchResult};
ghost use Rattle.oci_types.specs.Manifest.{manifest_in};
ghost use Rattle.registry_model.specs.Keeping.{shared_in, manifest_shown};
ghost use Rattle.registry_checking.specs.Wrongs.{is_of, wrong_bytes, wrong_blob, wrong_reading, wrong_manifest, untied};

use crate::notes::content;
use crate::wrong::{Flaw, Wrong};
use oci_documents::read_manifest;
use oci_types::{Digest, Fault, Kind, ManifestFault, RepoName, Tag, Verdict};
use std::alloc::Global;
use std::rc::Rc;

/// Whether the digest is that of the bytes.
fn is_of(digest: &Digest, bytes: &[u8]) -> bool
    ensures { result ≡ is_of digest.now bytes.now }
{
    match digest.verifies(bytes) {
        Verdict::Matches => true,
        Verdict::Differs => false,
        Verdict::Unsupported => false,
    }
}

/// What is wrong with bytes that are kept under a digest, and of which a size is told.
fn wrong_bytes(
    repo: &RepoName,
    digest: &Digest,
    bytes: &[u8],
    size: u64,
) -> Result<Option<Wrong>, Fault>
    ensures { MatchResult result (λ found. found ≡ wrong_bytes repo.now digest.now bytes.now size)
        (λ fault. fault ≡ Fault.Memory) }
{
    if size != bytes.len() as u64 {
        return content(repo, digest, Flaw::OtherSize);
    }
    if is_of(digest, bytes) {
        return Ok(None);
    }
    content(repo, digest, Flaw::OtherBytes)
}

/// What is wrong with a blob, by its bytes and its size.
pub fn wrong_blob(
    repo: &RepoName,
    digest: &Digest,
    bytes: Option<Rc<Vec<u8>>>,
    size: Option<u64>,
) -> Result<Option<Wrong>, Fault>
    ensures { MatchResult result (λ found. found ≡ wrong_blob repo.now digest.now (shared_in bytes) size)
        (λ fault. fault ≡ Fault.Memory) }
{
    match (bytes, size) {
        (Some(bytes), Some(size)) => wrong_bytes(repo, digest, &bytes, size),
        _ => Ok(None),
    }
}

/// What is wrong with a manifest's bytes, as they read.
fn wrong_reading(
    alloc: Global,
    repo: &RepoName,
    digest: &Digest,
    bytes: &[u8],
) -> Result<Option<Wrong>, Fault>
    ensures { MatchResult result
        (λ found. found ≡ wrong_reading repo.now digest.now (manifest_in bytes.now))
        (λ fault. fault ≡ Fault.Memory) }
{
    match read_manifest(alloc, bytes) {
        Ok(_) => Ok(None),
        Err(fault) => match fault {
            ManifestFault::Memory => Err(Fault::Memory),
            _ => content(repo, digest, Flaw::NoManifest),
        },
    }
}

/// What is wrong with a manifest, by its bytes and its size.
pub fn wrong_manifest(
    alloc: Global,
    repo: &RepoName,
    digest: &Digest,
    kept: Option<(Kind, Vec<u8>)>,
    sized: Option<(Kind, u64)>,
) -> Result<Option<Wrong>, Fault>
    ensures { MatchResult result
        (λ found. found ≡ wrong_manifest repo.now digest.now (manifest_shown kept) sized)
        (λ fault. fault ≡ Fault.Memory) }
{
    let (Some((_, bytes)), Some((_, size))) = (kept, sized) else {
        return Ok(None);
    };
    match wrong_bytes(repo, digest, &bytes, size)? {
        Some(wrong) => Ok(Some(wrong)),
        None => wrong_reading(alloc, repo, digest, &bytes),
    }
}

/// What is wrong with a tag, by the size of the manifest that it names, if there is one.
pub fn wrong_tag(
    repo: &RepoName,
    tag: Tag,
    sized: Option<(Kind, u64)>,
) -> Result<Option<Wrong>, Fault>
    ensures { MatchResult result (λ found. found ≡ untied repo.now tag sized)
        (λ fault. fault ≡ Fault.Memory) }
{
    match sized {
        Some(_) => Ok(None),
        None => match repo.clone() {
            Ok(repo) => Ok(Some(Wrong::Tag { repo, tag })),
            Err(_) => Err(Fault::Memory),
        },
    }
}
