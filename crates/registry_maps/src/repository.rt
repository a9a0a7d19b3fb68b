//! A repository over ordered maps of whole bytes, and its changes. After want of memory it holds what
//! it held.
ghost use Rattle.std.specs.Prelude.{◌≡◌, ◌<◌, ◌+◌, ◌++◌, true, not, is_some, Some, Ok, IfOk};
ghost use Rattle.std.specs.FinMap.{get};
ghost use Rattle.oci_types.specs.Manifest.{shown, manifest_in};
ghost use Rattle.registry_model.specs.Ask.{text_in};
ghost use Rattle.registry_model.specs.World.{new_repo};
ghost use Rattle.registry_model.specs.Limits.{largest};
ghost use Rattle.registry_model.specs.Blobs.{with_blob, without_blob};
ghost use Rattle.registry_model.specs.Pruning.{without_blobs};
ghost use Rattle.registry_model.specs.Sessions.{opened, appended, finished};
ghost use Rattle.registry_model.specs.Manifests.{with_bytes, with_tag, with_manifest, without_tag, without_manifest};
ghost use Rattle.registry_model.specs.Lookups.{bytes_or_none};
ghost use Rattle.registry_model.specs.Command.{without_sessions};
ghost use Rattle.registry_maps.specs.Maps.{repo_of, Makes};

mod digests;
mod reads;

use crate::kept_manifest::KeptManifest;
use crate::putting::put;
use oci_types::{Digest, Manifest, Tag};
use registry_model::Quota;
use std::alloc::{AllocError, Global};
use std::collections::BTreeMap;

/// What a repository holds: the bytes of blobs and manifests by their digests, digests by their
/// tags, and the bytes of open upload sessions by their numbers.
pub struct Repository {
    pub quota: u64,
    pub last: u64,
    pub blobs: BTreeMap<Digest, Vec<u8>>,
    pub manifests: BTreeMap<Digest, KeptManifest>,
    pub tags: BTreeMap<Tag, Digest>,
    pub sessions: BTreeMap<u64, Vec<u8>>,
}

impl Drop for Repository {
    fn drop(self) {
        let Repository {
            quota: _,
            last: _,
            blobs: _,
            manifests: _,
            tags: _,
            sessions: _,
        } = self;
    }
}

impl Repository {
    /// An empty repository.
    pub fn new(alloc: Global, quota: Quota) -> Repository
        ensures { repo_of result ≡ new_repo quota.bytes }
    {
        Repository {
            quota: quota.bytes,
            last: 0,
            blobs: BTreeMap::new(alloc),
            manifests: BTreeMap::new(alloc),
            tags: BTreeMap::new(alloc),
            sessions: BTreeMap::new(alloc),
        }
    }

    /// Adds a blob; a digest that is there keeps its bytes.
    pub fn put_blob(
        &mut self,
        alloc: Global,
        digest: &Digest,
        bytes: &[u8],
    ) -> Result<(), AllocError>
        ensures { Makes result (with_blob (repo_of self.old) digest.now bytes.now)
            (repo_of self.old) (repo_of self.new) }
    {
        if self.blobs.contains_key(digest) {
            return Ok(());
        }
        let key = digest.clone()?;
        let copy = bytes.to_vec(alloc)?;
        put(&mut self.blobs, key, copy)
    }

    pub fn delete_blob(&mut self, digest: &Digest)
        ensures { repo_of self.new ≡ without_blob (repo_of self.old) digest.now }
    {
        self.blobs.remove(digest);
    }

    /// Takes blobs away, one after the other; a digest of which there is no blob changes nothing.
    pub fn delete_blobs(&mut self, digests: &[Digest])
        ensures { repo_of self.new ≡ without_blobs (repo_of self.old) digests.now }
    {
        for digest in digests {
            self.delete_blob(digest);
        }
    }

    /// Opens an empty upload session under the next number, and answers it.
    pub fn open_session(&mut self, alloc: Global) -> Result<u64, AllocError>
        requires { self.old.last < largest }
        ensures number { IfOk result (λ number. number ≡ self.old.last + 1) }
        ensures made { Makes result (opened (repo_of self.old)) (repo_of self.old) (repo_of self.new) }
    {
        let number = self.last + 1;
        put(&mut self.sessions, number, Vec::new(alloc))?;
        self.last = number;
        Ok(number)
    }

    /// Puts bytes behind those of an open upload session.
    pub fn append(&mut self, number: u64, bytes: &[u8]) -> Result<(), AllocError>
        requires { is_some (get (repo_of self.old).sessions number) ≡ true }
        ensures { Makes result
            (appended (repo_of self.old) number
            (bytes_or_none (get (repo_of self.old).sessions number) ++ bytes.now))
            (repo_of self.old) (repo_of self.new) }
    {
        match self.sessions.get_mut(&number) {
            Some(session) => session.extend_from_slice(bytes),
            None => Ok(()),
        }
    }

    /// Ends an upload session and adds its whole bytes as a blob. Nothing is given up before the
    /// blob is there.
    pub fn finish(
        &mut self,
        alloc: Global,
        number: u64,
        digest: &Digest,
        bytes: &[u8],
    ) -> Result<(), AllocError>
        ensures { Makes result (finished (repo_of self.old) number digest.now bytes.now)
            (repo_of self.old) (repo_of self.new) }
    {
        self.put_blob(alloc, digest, bytes)?;
        self.sessions.remove(&number);
        Ok(())
    }

    /// Ends every upload session; the last number stays.
    pub fn drop_sessions(&mut self)
        ensures { repo_of self.new ≡ without_sessions (repo_of self.old) }
    {
        self.sessions.clear();
    }

    /// Adds a manifest; a digest that is there keeps its bytes. Answers whether it was not there.
    fn add_manifest(
        &mut self,
        alloc: Global,
        digest: &Digest,
        bytes: &[u8],
        manifest: &Manifest,
    ) -> Result<bool, AllocError>
        requires { manifest_in bytes.now ≡ Ok (shown manifest.now) }
        ensures made { Makes result (with_bytes (repo_of self.old) digest.now bytes.now)
            (repo_of self.old) (repo_of self.new) }
        ensures added { IfOk result
            (λ is_new. is_new ≡ not (is_some (get (repo_of self.old).manifests digest.now))) }
    {
        if self.manifests.contains_key(digest) {
            return Ok(false);
        }
        let key = digest.clone()?;
        let kept = KeptManifest::new(alloc, bytes, manifest)?;
        put(&mut self.manifests, key, kept)?;
        Ok(true)
    }

    /// Sets a tag to a digest.
    fn set_tag(&mut self, tag: &Tag, digest: &Digest) -> Result<(), AllocError>
        ensures { Makes result (with_tag (repo_of self.old) (Some tag.now) digest.now)
            (repo_of self.old) (repo_of self.new) }
    {
        let key = tag.clone()?;
        let digest = digest.clone()?;
        put(&mut self.tags, key, digest)
    }

    /// Adds a manifest and sets a tag to it. Where there is no memory for the tag, a manifest that was
    /// added goes again.
    pub fn put_manifest(
        &mut self,
        alloc: Global,
        digest: &Digest,
        bytes: &[u8],
        manifest: &Manifest,
        tag: Option<&Tag>,
    ) -> Result<(), AllocError>
        requires { manifest_in bytes.now ≡ Ok (shown manifest.now) }
        ensures { Makes result (with_manifest (repo_of self.old) digest.now bytes.now (text_in tag.entry))
            (repo_of self.old) (repo_of self.new) }
    {
        let is_new = self.add_manifest(alloc, digest, bytes, manifest)?;
        let Some(tag) = tag else {
            return Ok(());
        };
        let tagged = self.set_tag(tag, digest);
        if is_new && tagged.is_err() {
            self.manifests.remove(digest);
        }
        tagged
    }

    /// Takes a manifest away, with each tag that names it.
    pub fn delete_manifest(&mut self, digest: &Digest)
        ensures { repo_of self.new ≡ without_manifest (repo_of self.old) digest.now }
    {
        self.manifests.remove(digest);
        self.tags
            .retain(|_, named| named.as_str() != digest.as_str());
    }

    pub fn delete_tag(&mut self, tag: &Tag)
        ensures { repo_of self.new ≡ without_tag (repo_of self.old) tag.now }
    {
        self.tags.remove(tag);
    }
}
