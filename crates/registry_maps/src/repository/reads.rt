//! What a repository tells.
ghost use Rattle.std.specs.Prelude.{◌≡◌, ◌+◌, Some, length, option_map, sum_by, IfOk};
ghost use Rattle.std.specs.Ordering.{is_lt};
ghost use Rattle.std.specs.FinMap.{get, entries, keys, len};
ghost use Rattle.std.specs.BTreeMap.{values, IsOrdered};
ghost use Rattle.registry_model.specs.World.{text_cmp};
ghost use Rattle.registry_model.specs.Usage.{in_64_bits, used, usage_of};
ghost use Rattle.registry_model.specs.Manifests.{kind_in};
ghost use Rattle.registry_model.specs.TagPage.{first_of, more_than, tags_behind, page_behind};
ghost use Rattle.registry_model.specs.Referrers.{manifests_on};
ghost use Rattle.registry_model.specs.Keeping.{bytes_in, manifest_shown, page_shown, entries_shown, digests_shown, tags_shown};
ghost use Rattle.registry_maps.specs.Maps.{repo_of};

use crate::kept_manifest::KeptManifest;
use crate::putting::{push, push_pair};
use crate::repository::Repository;
use crate::repository::digests::digests_of;
use oci_types::{Digest, Kind, Tag};
use registry_model::Usage;
use std::alloc::{AllocError, Global};
use std::cmp::Ord;
use std::collections::BTreeMap;

/// A copy of the bytes, where there are any.
fn copy_of(alloc: Global, found: Option<&Vec<u8>>) -> Result<Option<Vec<u8>>, AllocError>
    ensures { IfOk result (λ copy. bytes_in copy ≡ option_map (λ v. v.now.items) found.entry) }
{
    match found {
        Some(bytes) => Ok(Some(bytes.as_slice().to_vec(alloc)?)),
        None => Ok(None),
    }
}

/// The total with the lengths, or the largest number of 64 bits where it is larger.
fn with_lengths<K: Ord>(before: u64, held: &BTreeMap<K, Vec<u8>>) -> u64
    ensures total { result ≡ in_64_bits (before + sum_by (λ v. length v.items) (values held.now)) }
    ensures ordered { IsOrdered K.cmp held.now }
{
    let mut total = before;
    for bytes in held.values() {
        total = total.saturating_add(bytes.len() as u64);
    }
    total
}

fn with_manifests(before: u64, held: &BTreeMap<Digest, KeptManifest>) -> u64
    ensures total { result ≡ in_64_bits (before + sum_by length (values held.now)) }
    ensures ordered { IsOrdered text_cmp held.now }
{
    let mut total = before;
    for manifest in held.values() {
        total = total.saturating_add(manifest.len());
    }
    total
}

/// Whether a tag is behind a text, in byte order.
fn is_behind(tag: &Tag, last: &str) -> bool
    ensures { result ≡ is_lt (text_cmp last.now tag.now) }
{
    last < tag.as_str()
}

/// The first `n` of the tags, and whether more follow behind a page that is not empty by its size.
fn first_page(mut tags: Vec<Tag>, n: u64) -> (Vec<Tag>, bool)
    ensures { page_shown result
        ≡ record { tags = first_of (Some n) tags.items; more = more_than (Some n) tags.items } }
{
    if n >= tags.len() as u64 {
        return (tags, false);
    }
    tags.truncate(n as usize);
    (tags, n > 0)
}

impl Repository {
    pub fn blob(&self, alloc: Global, digest: &Digest) -> Result<Option<Vec<u8>>, AllocError>
        ensures { IfOk result (λ copy. bytes_in copy ≡ get (repo_of self.now).blobs digest.now) }
    {
        copy_of(alloc, self.blobs.get(digest))
    }

    pub fn blob_size(&self, digest: &Digest) -> Option<u64>
        ensures { result ≡ option_map length (get (repo_of self.now).blobs digest.now) }
    {
        match self.blobs.get(digest) {
            Some(bytes) => Some(bytes.len() as u64),
            None => None,
        }
    }

    pub fn manifest(
        &self,
        alloc: Global,
        digest: &Digest,
    ) -> Result<Option<(Kind, Vec<u8>)>, AllocError>
        ensures { IfOk result
            (λ found. manifest_shown found
            ≡ option_map (λ bytes. (kind_in bytes, bytes))
            (get (repo_of self.now).manifests digest.now)) }
    {
        match self.manifests.get(digest) {
            Some(kept) => Ok(Some((kept.kind(), kept.to_vec(alloc)?))),
            None => Ok(None),
        }
    }

    pub fn manifest_size(&self, digest: &Digest) -> Option<(Kind, u64)>
        ensures { result
            ≡ option_map (λ bytes. (kind_in bytes, length bytes))
            (get (repo_of self.now).manifests digest.now) }
    {
        match self.manifests.get(digest) {
            Some(kept) => Some((kept.kind(), kept.len())),
            None => None,
        }
    }

    pub fn tag(&self, tag: &Tag) -> Result<Option<Digest>, AllocError>
        ensures { IfOk result (λ found. found ≡ get (repo_of self.now).tags tag.now) }
    {
        match self.tags.get(tag) {
            Some(digest) => Ok(Some(digest.clone()?)),
            None => Ok(None),
        }
    }

    /// The tags, in byte order, each with the digest that it names.
    pub fn tags(&self, alloc: Global) -> Result<Vec<(Tag, Digest)>, AllocError>
        ensures { IfOk result (λ found. tags_shown found ≡ entries (repo_of self.now).tags) }
    {
        let mut found = Vec::new(alloc);
        for (tag, digest) in self.tags.iter() {
            push_pair(&mut found, tag.clone(), digest.clone())?;
        }
        Ok(found)
    }

    /// The tags behind a text, in byte order.
    fn tags_behind(&self, alloc: Global, last: &str) -> Result<Vec<Tag>, AllocError>
        ensures { IfOk result (λ tags. tags.items ≡ tags_behind (repo_of self.now) last.now) }
    {
        let mut behind = Vec::new(alloc);
        for tag in self.tags.keys() {
            if is_behind(tag, last) {
                push(&mut behind, tag.clone())?;
            }
        }
        Ok(behind)
    }

    pub fn tags_after(
        &self,
        alloc: Global,
        last: &str,
        n: Option<u64>,
    ) -> Result<(Vec<Tag>, bool), AllocError>
        ensures { IfOk result (λ page. page_shown page ≡ page_behind (repo_of self.now) last.now n) }
    {
        let tags = self.tags_behind(alloc, last)?;
        match n {
            Some(n) => Ok(first_page(tags, n)),
            None => Ok((tags, false)),
        }
    }

    pub fn manifests_of_subject(
        &self,
        alloc: Global,
        digest: &Digest,
    ) -> Result<Vec<(Digest, Vec<u8>)>, AllocError>
        ensures { IfOk result (λ found. entries_shown found ≡ manifests_on (repo_of self.now) digest.now) }
    {
        let mut found = Vec::new(alloc);
        for (name, kept) in self.manifests.iter() {
            if kept.has_subject(digest) {
                push_pair(&mut found, name.clone(), kept.to_vec(alloc))?;
            }
        }
        Ok(found)
    }

    /// The digests of the blobs, in byte order.
    pub fn blob_digests(&self, alloc: Global) -> Result<Vec<Digest>, AllocError>
        ensures { IfOk result (λ found. digests_shown found ≡ keys (repo_of self.now).blobs) }
    {
        digests_of(alloc, &self.blobs)
    }

    /// The digests of the manifests, in byte order.
    pub fn manifest_digests(&self, alloc: Global) -> Result<Vec<Digest>, AllocError>
        ensures { IfOk result (λ found. digests_shown found ≡ keys (repo_of self.now).manifests) }
    {
        digests_of(alloc, &self.manifests)
    }

    pub fn session(&self, alloc: Global, number: u64) -> Result<Option<Vec<u8>>, AllocError>
        ensures { IfOk result (λ copy. bytes_in copy ≡ get (repo_of self.now).sessions number) }
    {
        copy_of(alloc, self.sessions.get(&number))
    }

    pub fn session_size(&self, number: u64) -> Option<u64>
        ensures { result ≡ option_map length (get (repo_of self.now).sessions number) }
    {
        match self.sessions.get(&number) {
            Some(bytes) => Some(bytes.len() as u64),
            None => None,
        }
    }

    pub fn sessions_open(&self) -> u64
        ensures { result ≡ len (repo_of self.now).sessions }
    {
        self.sessions.len() as u64
    }

    pub fn last_number(&self) -> u64
        ensures { result ≡ (repo_of self.now).last }
    {
        self.last
    }

    /// The lengths of the blobs, of the manifests and of the open upload sessions, at most the largest
    /// number of 64 bits.
    fn used(&self) -> u64
        ensures { result ≡ in_64_bits (used (repo_of self.now)) }
    {
        let blobs = with_lengths(0, &self.blobs);
        let manifests = with_manifests(blobs, &self.manifests);
        with_lengths(manifests, &self.sessions)
    }

    pub fn usage(&self) -> Usage
        ensures { result ≡ usage_of (repo_of self.now) }
    {
        Usage {
            used: self.used(),
            quota: self.quota,
            blobs: self.blobs.len() as u64,
            manifests: self.manifests.len() as u64,
            tags: self.tags.len() as u64,
            sessions: self.sessions.len() as u64,
        }
    }
}
