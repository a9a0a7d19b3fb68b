//! A keeper's calls, with what is held left as it is.
ghost use Rattle.std.specs.Prelude.{◌≡◌};
ghost use Rattle.registry_holding.specs.Shown.{holding};

use super::Holding;
use oci_types::{Digest, Fault, Kind, Manifest, RepoName, Tag, Token};
use registry_model::keeper::Found;
use registry_model::{Grant, Keeper, Level, Quota, Usage};
use std::alloc::Global;
use std::rc::Rc;

/// From how many bytes on those of a blob are known while somebody holds them.
const MANY: usize = 65_536;

impl<K: Keeper> Keeper for Holding<K> {
    ghost kept = { λ h. holding h.stages.map h.pins.map (K.kept h.keeper) };

    ghost is_honest = { λ h. K.is_honest h.keeper };

    fn spent(&self) -> bool {
        self.keeper.spent()
    }

    fn known(&mut self, token: &Token) -> Result<bool, Fault> {
        self.keeper.known(token)
    }

    fn has_repo(&mut self, repo: &RepoName) -> Result<bool, Fault> {
        self.keeper.has_repo(repo)
    }

    fn repo_names(&mut self, alloc: Global) -> Result<Vec<RepoName>, Fault> {
        self.keeper.repo_names(alloc)
    }

    fn count_repos(&mut self) -> Result<u64, Fault> {
        self.keeper.count_repos()
    }

    fn level(&mut self, token: &Token, repo: &RepoName) -> Found<Level> {
        self.keeper.level(token, repo)
    }

    /// The bytes that somebody holds, where the blob was read and has not changed since.
    fn blob(&mut self, alloc: Global, repo: &RepoName, digest: &Digest) -> Found<Rc<Vec<u8>>> {
        if self.keeper.spent() {
            return Err(Fault::Storage);
        }
        if let Some(bytes) = self.shared.find(repo, digest) {
            return Ok(Some(bytes));
        }
        let found = self.keeper.blob(alloc, repo, digest);
        if let Ok(Some(bytes)) = &found {
            if bytes.len() >= MANY {
                self.shared.note(repo, digest, bytes);
            }
        }
        found
    }

    fn blob_size(&mut self, repo: &RepoName, digest: &Digest) -> Found<u64> {
        self.keeper.blob_size(repo, digest)
    }

    fn manifest(
        &mut self,
        alloc: Global,
        repo: &RepoName,
        digest: &Digest,
    ) -> Found<(Kind, Vec<u8>)> {
        self.keeper.manifest(alloc, repo, digest)
    }

    fn manifest_size(&mut self, repo: &RepoName, digest: &Digest) -> Found<(Kind, u64)> {
        self.keeper.manifest_size(repo, digest)
    }

    fn tag(&mut self, alloc: Global, repo: &RepoName, tag: &Tag) -> Found<Digest> {
        self.keeper.tag(alloc, repo, tag)
    }

    fn tags(&mut self, alloc: Global, repo: &RepoName) -> Result<Vec<(Tag, Digest)>, Fault> {
        self.keeper.tags(alloc, repo)
    }

    fn tags_after(
        &mut self,
        alloc: Global,
        repo: &RepoName,
        last: &str,
        n: Option<u64>,
    ) -> Result<(Vec<Tag>, bool), Fault> {
        self.keeper.tags_after(alloc, repo, last, n)
    }

    fn manifests_of_subject(
        &mut self,
        alloc: Global,
        repo: &RepoName,
        digest: &Digest,
    ) -> Result<Vec<(Digest, Vec<u8>)>, Fault> {
        self.keeper.manifests_of_subject(alloc, repo, digest)
    }

    fn session_size(&mut self, repo: &RepoName, number: u64) -> Found<u64> {
        self.keeper.session_size(repo, number)
    }

    fn session(&mut self, alloc: Global, repo: &RepoName, number: u64) -> Found<Vec<u8>> {
        self.keeper.session(alloc, repo, number)
    }

    fn sessions_open(&mut self, repo: &RepoName) -> Result<u64, Fault> {
        self.keeper.sessions_open(repo)
    }

    fn last_number(&mut self, repo: &RepoName) -> Result<u64, Fault> {
        self.keeper.last_number(repo)
    }

    fn usage(&mut self, repo: &RepoName) -> Result<Usage, Fault> {
        self.keeper.usage(repo)
    }

    fn usages(&mut self, alloc: Global) -> Result<Vec<(RepoName, Usage)>, Fault> {
        self.keeper.usages(alloc)
    }

    fn levels(&mut self, alloc: Global, repo: &RepoName) -> Result<Vec<(Token, Level)>, Fault> {
        self.keeper.levels(alloc, repo)
    }

    fn grants(&mut self, alloc: Global) -> Result<Vec<Grant>, Fault> {
        self.keeper.grants(alloc)
    }

    fn blob_digests(&mut self, alloc: Global, repo: &RepoName) -> Result<Vec<Digest>, Fault> {
        self.keeper.blob_digests(alloc, repo)
    }

    fn manifest_digests(&mut self, alloc: Global, repo: &RepoName) -> Result<Vec<Digest>, Fault> {
        self.keeper.manifest_digests(alloc, repo)
    }

    fn put_blob(&mut self, repo: &RepoName, digest: &Digest, bytes: &[u8]) -> Result<(), Fault> {
        self.keeper.put_blob(repo, digest, bytes)
    }

    fn open_session(&mut self, repo: &RepoName) -> Result<u64, Fault> {
        self.keeper.open_session(repo)
    }

    fn append(
        &mut self,
        repo: &RepoName,
        number: u64,
        bytes: &[u8],
        hash: Option<[u8; 32]>,
    ) -> Result<(), Fault> {
        self.keeper.append(repo, number, bytes, hash)
    }

    fn finish(
        &mut self,
        repo: &RepoName,
        number: u64,
        digest: &Digest,
        bytes: &[u8],
    ) -> Result<(), Fault> {
        self.keeper.finish(repo, number, digest, bytes)
    }

    fn finish_known(
        &mut self,
        repo: &RepoName,
        number: u64,
        digest: &Digest,
    ) -> Result<bool, Fault> {
        self.keeper.finish_known(repo, number, digest)
    }

    fn mount(&mut self, from: &RepoName, to: &RepoName, digest: &Digest) -> Result<(), Fault> {
        self.keeper.mount(from, to, digest)
    }

    fn put_manifest(
        &mut self,
        repo: &RepoName,
        digest: &Digest,
        bytes: &[u8],
        manifest: &Manifest,
        tag: Option<&Tag>,
    ) -> Result<(), Fault> {
        self.keeper.put_manifest(repo, digest, bytes, manifest, tag)
    }

    fn delete_blob(&mut self, repo: &RepoName, digest: &Digest) -> Result<(), Fault> {
        self.shared.forget();
        self.keeper.delete_blob(repo, digest)
    }

    fn delete_blobs(&mut self, repo: &RepoName, digests: &[Digest]) -> Result<(), Fault> {
        self.shared.forget();
        self.keeper.delete_blobs(repo, digests)
    }

    fn delete_manifest(&mut self, repo: &RepoName, digest: &Digest) -> Result<(), Fault> {
        self.keeper.delete_manifest(repo, digest)
    }

    fn delete_tag(&mut self, repo: &RepoName, tag: &Tag) -> Result<(), Fault> {
        self.keeper.delete_tag(repo, tag)
    }

    fn set_repo(&mut self, name: &RepoName, quota: Quota) -> Result<(), Fault> {
        self.keeper.set_repo(name, quota)
    }

    fn drop_repo(&mut self, name: &RepoName) -> Result<(), Fault> {
        self.shared.forget();
        self.keeper.drop_repo(name)
    }

    fn grant(&mut self, token: &Token, name: &RepoName, level: Level) -> Result<(), Fault> {
        self.keeper.grant(token, name, level)
    }

    fn revoke(&mut self, token: &Token, name: &RepoName) -> Result<(), Fault> {
        self.keeper.revoke(token, name)
    }

    fn revoke_all(&mut self, token: &Token) -> Result<(), Fault> {
        self.keeper.revoke_all(token)
    }

    fn drop_sessions(&mut self, name: &RepoName) -> Result<(), Fault> {
        self.keeper.drop_sessions(name)
    }

    fn clear(&mut self) -> Result<(), Fault> {
        self.keeper.clear()
    }
}
