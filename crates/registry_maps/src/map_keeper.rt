//! The keeper over ordered maps.
ghost use Rattle.std.specs.Prelude.{◌≡◌};
ghost use Rattle.registry_model.specs.World.{no_world};
ghost use Rattle.registry_model.specs.Keeping.{bare};

mod blobs;
mod last_number;
mod listing;

use crate::levels::{set_level, take_level};
use crate::memory::or_memory;
use crate::putting::put;
use crate::repository::Repository;
use oci_types::{Digest, Fault, Kind, Manifest, RepoName, Tag, Token};
use registry_model::{Grant, Keeper, Level, Quota, Usage};
use std::alloc::Global;
use std::collections::BTreeMap;
use std::rc::Rc;

/// A keeper over ordered maps, whose bytes lie in memory. It never answers `Fault::Storage`.
pub struct MapKeeper {
    alloc: Global,
    repos: BTreeMap<RepoName, Repository>,
    grants: BTreeMap<Token, BTreeMap<RepoName, Level>>,
}

// (written out, so that where one is dropped it is by a call)
impl Drop for MapKeeper {
    fn drop(self) {
        let MapKeeper {
            alloc: _,
            repos: _,
            grants: _,
        } = self;
    }
}

impl MapKeeper {
    /// A keeper of the empty world, whose maps grow by this allocator; takes no memory.
    pub fn new(alloc: Global) -> MapKeeper
        ensures { ⟦<MapKeeper as Keeper>⟧.kept result ≡ bare no_world }
    {
        MapKeeper {
            alloc,
            repos: BTreeMap::new(alloc),
            grants: BTreeMap::new(alloc),
        }
    }
}

impl Keeper for MapKeeper {
    ghost use Rattle.std.specs.Prelude.{⊤};
    ghost use Rattle.registry_maps.specs.Maps.{kept_of};

    ghost kept = { λ k. kept_of k.repos k.grants };

    ghost is_honest = { λ _. ⊤ };

    fn spent(&self) -> bool {
        false
    }

    fn known(&mut self, token: &Token) -> Result<bool, Fault> {
        match self.grants.get(token) {
            Some(levels) => Ok(!levels.is_empty()),
            None => Ok(false),
        }
    }

    fn has_repo(&mut self, repo: &RepoName) -> Result<bool, Fault> {
        Ok(self.repos.contains_key(repo))
    }

    fn repo_names(&mut self, alloc: Global) -> Result<Vec<RepoName>, Fault> {
        or_memory(self.names(alloc))
    }

    fn count_repos(&mut self) -> Result<u64, Fault> {
        Ok(self.repos.len() as u64)
    }

    fn level(&mut self, token: &Token, repo: &RepoName) -> Result<Option<Level>, Fault> {
        match self.grants.get(token) {
            Some(levels) => Ok(levels.get(repo).copied()),
            None => Ok(None),
        }
    }

    fn blob(
        &mut self,
        alloc: Global,
        repo: &RepoName,
        digest: &Digest,
    ) -> Result<Option<Rc<Vec<u8>>>, Fault> {
        or_memory(self.shared_blob(alloc, repo, digest))
    }

    fn blob_size(&mut self, repo: &RepoName, digest: &Digest) -> Result<Option<u64>, Fault> {
        match self.repos.get(repo) {
            Some(repository) => Ok(repository.blob_size(digest)),
            None => Ok(None),
        }
    }

    fn manifest(
        &mut self,
        alloc: Global,
        repo: &RepoName,
        digest: &Digest,
    ) -> Result<Option<(Kind, Vec<u8>)>, Fault> {
        match self.repos.get(repo) {
            Some(repository) => or_memory(repository.manifest(alloc, digest)),
            None => Ok(None),
        }
    }

    fn manifest_size(
        &mut self,
        repo: &RepoName,
        digest: &Digest,
    ) -> Result<Option<(Kind, u64)>, Fault> {
        match self.repos.get(repo) {
            Some(repository) => Ok(repository.manifest_size(digest)),
            None => Ok(None),
        }
    }

    fn tag(&mut self, _alloc: Global, repo: &RepoName, tag: &Tag) -> Result<Option<Digest>, Fault> {
        match self.repos.get(repo) {
            Some(repository) => or_memory(repository.tag(tag)),
            None => Ok(None),
        }
    }

    fn tags(&mut self, alloc: Global, repo: &RepoName) -> Result<Vec<(Tag, Digest)>, Fault> {
        match self.repos.get(repo) {
            Some(repository) => or_memory(repository.tags(alloc)),
            None => Ok(Vec::new(alloc)),
        }
    }

    fn tags_after(
        &mut self,
        alloc: Global,
        repo: &RepoName,
        last: &str,
        n: Option<u64>,
    ) -> Result<(Vec<Tag>, bool), Fault> {
        match self.repos.get(repo) {
            Some(repository) => or_memory(repository.tags_after(alloc, last, n)),
            None => Ok((Vec::new(alloc), false)),
        }
    }

    fn manifests_of_subject(
        &mut self,
        alloc: Global,
        repo: &RepoName,
        digest: &Digest,
    ) -> Result<Vec<(Digest, Vec<u8>)>, Fault> {
        match self.repos.get(repo) {
            Some(repository) => or_memory(repository.manifests_of_subject(alloc, digest)),
            None => Ok(Vec::new(alloc)),
        }
    }

    fn session_size(&mut self, repo: &RepoName, number: u64) -> Result<Option<u64>, Fault> {
        match self.repos.get(repo) {
            Some(repository) => Ok(repository.session_size(number)),
            None => Ok(None),
        }
    }

    fn session(
        &mut self,
        alloc: Global,
        repo: &RepoName,
        number: u64,
    ) -> Result<Option<Vec<u8>>, Fault> {
        match self.repos.get(repo) {
            Some(repository) => or_memory(repository.session(alloc, number)),
            None => Ok(None),
        }
    }

    fn sessions_open(&mut self, repo: &RepoName) -> Result<u64, Fault> {
        match self.repos.get(repo) {
            Some(repository) => Ok(repository.sessions_open()),
            None => Ok(0),
        }
    }

    fn last_number(&mut self, repo: &RepoName) -> Result<u64, Fault> {
        match self.repos.get(repo) {
            Some(repository) => Ok(repository.last_number()),
            None => Ok(0),
        }
    }

    fn usage(&mut self, repo: &RepoName) -> Result<Usage, Fault> {
        match self.repos.get(repo) {
            Some(repository) => Ok(repository.usage()),
            None => Ok(Usage {
                used: 0,
                quota: 0,
                blobs: 0,
                manifests: 0,
                tags: 0,
                sessions: 0,
            }),
        }
    }

    fn usages(&mut self, alloc: Global) -> Result<Vec<(RepoName, Usage)>, Fault> {
        or_memory(self.all_usages(alloc))
    }

    fn levels(&mut self, alloc: Global, repo: &RepoName) -> Result<Vec<(Token, Level)>, Fault> {
        or_memory(self.levels_on(alloc, repo))
    }

    fn grants(&mut self, alloc: Global) -> Result<Vec<Grant>, Fault> {
        or_memory(self.all_grants(alloc))
    }

    fn blob_digests(&mut self, alloc: Global, repo: &RepoName) -> Result<Vec<Digest>, Fault> {
        match self.repos.get(repo) {
            Some(repository) => or_memory(repository.blob_digests(alloc)),
            None => Ok(Vec::new(alloc)),
        }
    }

    fn manifest_digests(&mut self, alloc: Global, repo: &RepoName) -> Result<Vec<Digest>, Fault> {
        match self.repos.get(repo) {
            Some(repository) => or_memory(repository.manifest_digests(alloc)),
            None => Ok(Vec::new(alloc)),
        }
    }

    fn put_blob(&mut self, repo: &RepoName, digest: &Digest, bytes: &[u8]) -> Result<(), Fault> {
        or_memory(self.add_blob(repo, digest, bytes))
    }

    fn open_session(&mut self, repo: &RepoName) -> Result<u64, Fault> {
        let alloc = self.alloc;
        match self.repos.get_mut(repo) {
            Some(repository) => or_memory(repository.open_session(alloc)),
            None => Ok(0),
        }
    }

    fn append(
        &mut self,
        repo: &RepoName,
        number: u64,
        bytes: &[u8],
        _hash: Option<[u8; 32]>,
    ) -> Result<(), Fault> {
        match self.repos.get_mut(repo) {
            Some(repository) => or_memory(repository.append(number, bytes)),
            None => Ok(()),
        }
    }

    fn finish(
        &mut self,
        repo: &RepoName,
        number: u64,
        digest: &Digest,
        bytes: &[u8],
    ) -> Result<(), Fault> {
        let alloc = self.alloc;
        match self.repos.get_mut(repo) {
            Some(repository) => or_memory(repository.finish(alloc, number, digest, bytes)),
            None => Ok(()),
        }
    }

    /// Of bytes in memory nothing is known without reading them.
    fn finish_known(
        &mut self,
        _repo: &RepoName,
        _number: u64,
        _digest: &Digest,
    ) -> Result<bool, Fault> {
        Ok(false)
    }

    fn mount(&mut self, from: &RepoName, to: &RepoName, digest: &Digest) -> Result<(), Fault> {
        match self.copy_of_blob(self.alloc, from, digest) {
            Ok(Some(bytes)) => or_memory(self.add_blob(to, digest, &bytes)),
            Ok(None) => Ok(()),
            Err(_) => Err(Fault::Memory),
        }
    }

    fn put_manifest(
        &mut self,
        repo: &RepoName,
        digest: &Digest,
        bytes: &[u8],
        manifest: &Manifest,
        tag: Option<&Tag>,
    ) -> Result<(), Fault> {
        let alloc = self.alloc;
        match self.repos.get_mut(repo) {
            Some(repository) => or_memory(repository.put_manifest(
                alloc, digest, bytes, manifest, tag,
            )),
            None => Ok(()),
        }
    }

    fn delete_blob(&mut self, repo: &RepoName, digest: &Digest) -> Result<(), Fault> {
        if let Some(repository) = self.repos.get_mut(repo) {
            repository.delete_blob(digest);
        }
        Ok(())
    }

    fn delete_blobs(&mut self, repo: &RepoName, digests: &[Digest]) -> Result<(), Fault> {
        if let Some(repository) = self.repos.get_mut(repo) {
            repository.delete_blobs(digests);
        }
        Ok(())
    }

    fn delete_manifest(&mut self, repo: &RepoName, digest: &Digest) -> Result<(), Fault> {
        if let Some(repository) = self.repos.get_mut(repo) {
            repository.delete_manifest(digest);
        }
        Ok(())
    }

    fn delete_tag(&mut self, repo: &RepoName, tag: &Tag) -> Result<(), Fault> {
        if let Some(repository) = self.repos.get_mut(repo) {
            repository.delete_tag(tag);
        }
        Ok(())
    }

    fn set_repo(&mut self, name: &RepoName, quota: Quota) -> Result<(), Fault> {
        if let Some(repository) = self.repos.get_mut(name) {
            repository.quota = quota.bytes;
            return Ok(());
        }
        let Ok(key) = name.clone() else {
            return Err(Fault::Memory);
        };
        let made = Repository::new(self.alloc, quota);
        or_memory(put(&mut self.repos, key, made))
    }

    fn drop_repo(&mut self, name: &RepoName) -> Result<(), Fault> {
        self.repos.remove(name);
        self.grants.retain(|_, levels| take_level(levels, name));
        Ok(())
    }

    fn grant(&mut self, token: &Token, name: &RepoName, level: Level) -> Result<(), Fault> {
        if let Some(levels) = self.grants.get_mut(token) {
            return or_memory(set_level(levels, name, level));
        }
        let Ok(key) = token.clone() else {
            return Err(Fault::Memory);
        };
        let mut levels = BTreeMap::new(self.alloc);
        let Ok(()) = set_level(&mut levels, name, level) else {
            return Err(Fault::Memory);
        };
        or_memory(put(&mut self.grants, key, levels))
    }

    fn revoke(&mut self, token: &Token, name: &RepoName) -> Result<(), Fault> {
        if let Some(levels) = self.grants.get_mut(token) {
            take_level(levels, name);
        }
        Ok(())
    }

    fn revoke_all(&mut self, token: &Token) -> Result<(), Fault> {
        self.grants.remove(token);
        Ok(())
    }

    fn drop_sessions(&mut self, name: &RepoName) -> Result<(), Fault> {
        if let Some(repository) = self.repos.get_mut(name) {
            repository.drop_sessions();
        }
        Ok(())
    }

    fn clear(&mut self) -> Result<(), Fault> {
        Ok(())
    }
}
