//! The store as a keeper: each call asks the tables, and what is said of rows is said of the world. Each
//! write is one transaction. What is known of a repository's usage follows it, or is forgotten.
ghost use Rattle.std.specs.Prelude.{◌≡◌, ◌≤◌, ◌<◌, ◌+◌, true, length, is_some, Ok, OnOk, IfSome};
ghost use Rattle.sha2.specs.Sha256.{sha256};
ghost use Rattle.oci_types.specs.Digest.{matches};
ghost use Rattle.oci_types.specs.Manifest.{shown, manifest_in};
ghost use Rattle.registry_model.specs.Ask.{text_in};
ghost use Rattle.registry_model.specs.Closing.{session_matches, finish_as_is};
ghost use Rattle.registry_model.specs.Command.{set_repo, drop_repo, grant, revoke, revoke_all, drop_sessions};
ghost use Rattle.registry_model.specs.Keeping.{nothing_held};
ghost use Rattle.registry_model.specs.Limits.{largest, largest_blob, largest_manifest, most_sessions};
ghost use Rattle.registry_model.specs.Lookups.{append, blob_at, bytes_or_none, delete_blob, delete_manifest, delete_tag, finish, last_number_at, manifest_at, mount, open_session, put_blob, put_manifest, session_at, sessions_open_at, tag_at};
ghost use Rattle.registry_model.specs.Pruning.{delete_blobs};
ghost use Rattle.registry_model.specs.World.{is_known, has_repo, level_at};
ghost use Rattle.registry_store.specs.Calls.{IsFreed};
ghost use Rattle.registry_store.specs.Kept.{IsHonest, both, world_at};
ghost use Rattle.registry_store.specs.KeptWrites.{AsksOf, WritesOnce, WritesOnceBy, WritesOnceWhereSo};

use crate::counted_repos::{drop_repo, set_repo};
use crate::counted_sessions::open_session;
use crate::fault_noting::note_fault;
use crate::known_ends::finish_known;
use crate::origin::Origin;
use crate::reclaim::Reclaim;
use crate::row_writes::write_rows;
use crate::staged_writes::{append, finish, put_blob, put_manifest};
use crate::store::Store;
use crate::usage_reads::recalled_usage;
use crate::write::Write;
use oci_types::{Digest, Fault, Kind, Manifest, RepoName, Tag, Token};
use registry_model::keeper::Found;
use registry_model::{Grant, Keeper, Level, Quota, Usage};
use sqlite::Alter;
use std::alloc::Global;
use std::rc::Rc;

/// Asks the tables, unless the storage has failed, and notes where it fails now.
macro_rules! unless_spent {
    ($store:ident, $asked:expr) => {{
        if $store.spent {
            return Err(Fault::Storage);
        }
        let answer = $asked;
        note_fault(&mut $store.spent, answer)
    }};
}

/// Reads the tables.
macro_rules! read {
    ($store:ident, $read:ident($($arg:expr),*)) => {
        unless_spent!($store, store_reads::$read(&mut $store.conn, $($arg),*))
    };
}

/// Reads the tables, by an allocator.
macro_rules! read_in {
    ($store:ident, $alloc:ident, $read:ident($($arg:expr),*)) => {
        unless_spent!($store, store_reads::$read($alloc, &mut $store.conn, $($arg),*))
    };
}

/// Asks the tables by what is known of usages, which follows what is written.
macro_rules! counted {
    ($store:ident, $asked:ident($($arg:expr),*)) => {
        unless_spent!(
            $store,
            $asked($store.alloc, &mut $store.conn, &mut $store.known, $($arg),*)
        )
    };
}

impl<S: Alter, O: Origin, C: Reclaim> Keeper for Store<S, O, C> {
    ghost kept = { λ s. record {
      world = world_at S.Store C.Contents (both s);
      spent = s.spent;
      held = nothing_held;
    } };

    ghost is_honest = { λ s. IsHonest S.Store C.Contents O.is_ours s };

    fn spent(&self) -> bool {
        self.spent
    }

    fn known(&mut self, token: &Token) -> Result<bool, Fault> {
        read!(self, known(token))
    }

    fn has_repo(&mut self, repo: &RepoName) -> Result<bool, Fault> {
        read!(self, has_repo(repo))
    }

    fn repo_names(&mut self, alloc: Global) -> Result<Vec<RepoName>, Fault> {
        read_in!(self, alloc, repo_names())
    }

    fn count_repos(&mut self) -> Result<u64, Fault> {
        read!(self, count_repos())
    }

    fn level(&mut self, token: &Token, repo: &RepoName) -> Found<Level> {
        read!(self, level(token, repo))
    }

    fn blob(&mut self, alloc: Global, repo: &RepoName, digest: &Digest) -> Found<Rc<Vec<u8>>> {
        read_in!(self, alloc, blob(&mut self.contents, repo, digest))
    }

    fn blob_size(&mut self, repo: &RepoName, digest: &Digest) -> Found<u64> {
        read!(self, blob_size(repo, digest))
    }

    fn manifest(
        &mut self,
        alloc: Global,
        repo: &RepoName,
        digest: &Digest,
    ) -> Found<(Kind, Vec<u8>)> {
        read_in!(self, alloc, manifest(&mut self.contents, repo, digest))
    }

    fn manifest_size(&mut self, repo: &RepoName, digest: &Digest) -> Found<(Kind, u64)> {
        read!(self, manifest_size(repo, digest))
    }

    fn tag(&mut self, alloc: Global, repo: &RepoName, tag: &Tag) -> Found<Digest> {
        read_in!(self, alloc, tag(repo, tag))
    }

    fn tags(&mut self, alloc: Global, repo: &RepoName) -> Result<Vec<(Tag, Digest)>, Fault> {
        read_in!(self, alloc, all_tags(repo))
    }

    fn tags_after(
        &mut self,
        alloc: Global,
        repo: &RepoName,
        last: &str,
        n: Option<u64>,
    ) -> Result<(Vec<Tag>, bool), Fault> {
        read_in!(self, alloc, tags_after(repo, last, n))
    }

    fn manifests_of_subject(
        &mut self,
        alloc: Global,
        repo: &RepoName,
        digest: &Digest,
    ) -> Result<Vec<(Digest, Vec<u8>)>, Fault> {
        read_in!(
            self,
            alloc,
            manifests_of_subject(&mut self.contents, repo, digest)
        )
    }

    fn session_size(&mut self, repo: &RepoName, number: u64) -> Found<u64> {
        read!(self, session_size(repo, number))
    }

    fn session(&mut self, alloc: Global, repo: &RepoName, number: u64) -> Found<Vec<u8>> {
        read_in!(
            self,
            alloc,
            session_numbered(&mut self.contents, repo, number)
        )
    }

    fn sessions_open(&mut self, repo: &RepoName) -> Result<u64, Fault> {
        read!(self, sessions_open(repo))
    }

    fn last_number(&mut self, repo: &RepoName) -> Result<u64, Fault> {
        read!(self, last_number(repo))
    }

    fn usage(&mut self, repo: &RepoName) -> Result<Usage, Fault> {
        counted!(self, recalled_usage(repo))
    }

    fn usages(&mut self, alloc: Global) -> Result<Vec<(RepoName, Usage)>, Fault> {
        read_in!(self, alloc, usages())
    }

    fn levels(&mut self, alloc: Global, repo: &RepoName) -> Result<Vec<(Token, Level)>, Fault> {
        read_in!(self, alloc, levels(repo))
    }

    fn grants(&mut self, alloc: Global) -> Result<Vec<Grant>, Fault> {
        read_in!(self, alloc, all_grants())
    }

    fn blob_digests(&mut self, alloc: Global, repo: &RepoName) -> Result<Vec<Digest>, Fault> {
        read_in!(self, alloc, blob_digests(repo))
    }

    fn manifest_digests(&mut self, alloc: Global, repo: &RepoName) -> Result<Vec<Digest>, Fault> {
        read_in!(self, alloc, manifest_digests(repo))
    }

    fn put_blob(&mut self, repo: &RepoName, digest: &Digest, bytes: &[u8]) -> Result<(), Fault>
        requires there { AsksOf S.Store C.Contents O.is_ours self.old (λ w. has_repo w repo.now ≡ true) }
        requires matching { matches digest.now bytes.now ≡ true }
        requires fits { length bytes.now ≤ largest_blob }
        ensures { WritesOnce S.Store C.Contents O.is_ours self.old self.new result
            (λ w. put_blob w repo.now digest.now bytes.now) }
    {
        counted!(self, put_blob(&mut self.contents, repo, digest, bytes))
    }

    fn open_session(&mut self, repo: &RepoName) -> Result<u64, Fault>
        requires there { AsksOf S.Store C.Contents O.is_ours self.old (λ w. has_repo w repo.now ≡ true) }
        requires few { AsksOf S.Store C.Contents O.is_ours self.old
            (λ w. sessions_open_at w repo.now < most_sessions) }
        requires below { AsksOf S.Store C.Contents O.is_ours self.old
            (λ w. last_number_at w repo.now < largest) }
        ensures { WritesOnceBy S.Store C.Contents O.is_ours self.old self.new result
            (λ w. last_number_at w repo.now + 1) (λ w. open_session w repo.now) }
    {
        unless_spent!(self, open_session(&mut self.conn, &mut self.known, repo))
    }

    fn append(
        &mut self,
        repo: &RepoName,
        number: u64,
        bytes: &[u8],
        hash: Option<[u8; 32]>,
    ) -> Result<(), Fault>
        requires hashed { IfSome hash (λ h. h ≡ sha256 bytes.now) }
        requires open { AsksOf S.Store C.Contents O.is_ours self.old
            (λ w. is_some (session_at w repo.now number) ≡ true) }
        requires fits { AsksOf S.Store C.Contents O.is_ours self.old
            (λ w. length (bytes_or_none (session_at w repo.now number)) + length bytes.now ≤ largest_blob) }
        ensures { WritesOnce S.Store C.Contents O.is_ours self.old self.new result
            (λ w. append w repo.now number bytes.now) }
    {
        counted!(self, append(&mut self.contents, repo, number, bytes, hash))
    }

    fn finish(
        &mut self,
        repo: &RepoName,
        number: u64,
        digest: &Digest,
        bytes: &[u8],
    ) -> Result<(), Fault>
        requires open { AsksOf S.Store C.Contents O.is_ours self.old
            (λ w. is_some (session_at w repo.now number) ≡ true) }
        requires matching { matches digest.now bytes.now ≡ true }
        requires fits { length bytes.now ≤ largest_blob }
        ensures { WritesOnce S.Store C.Contents O.is_ours self.old self.new result
            (λ w. finish w repo.now number digest.now bytes.now) }
    {
        counted!(
            self,
            finish(&mut self.contents, repo, number, digest, bytes)
        )
    }

    fn finish_known(&mut self, repo: &RepoName, number: u64, digest: &Digest) -> Result<bool, Fault>
        ensures { WritesOnceWhereSo S.Store C.Contents O.is_ours self.old self.new result
            (λ w. session_matches w repo.now number digest.now)
            (λ w. finish_as_is w repo.now number digest.now) }
    {
        counted!(self, finish_known(&self.contents, repo, number, digest))
    }

    fn mount(&mut self, from: &RepoName, to: &RepoName, digest: &Digest) -> Result<(), Fault>
        requires there { AsksOf S.Store C.Contents O.is_ours self.old (λ w. has_repo w to.now ≡ true) }
        requires source { AsksOf S.Store C.Contents O.is_ours self.old
            (λ w. is_some (blob_at w from.now digest.now) ≡ true) }
        ensures { WritesOnce S.Store C.Contents O.is_ours self.old self.new result
            (λ w. mount w from.now to.now digest.now) }
    {
        counted!(self, write_rows(to, Write::Mount { from, digest }))
    }

    fn put_manifest(
        &mut self,
        repo: &RepoName,
        digest: &Digest,
        bytes: &[u8],
        manifest: &Manifest,
        tag: Option<&Tag>,
    ) -> Result<(), Fault>
        requires there { AsksOf S.Store C.Contents O.is_ours self.old (λ w. has_repo w repo.now ≡ true) }
        requires matching { matches digest.now bytes.now ≡ true }
        requires reads { manifest_in bytes.now ≡ Ok (shown manifest.now) }
        requires fits { length bytes.now ≤ largest_manifest }
        ensures { WritesOnce S.Store C.Contents O.is_ours self.old self.new result
            (λ w. put_manifest w repo.now digest.now bytes.now (text_in tag.entry)) }
    {
        counted!(
            self,
            put_manifest(&mut self.contents, repo, digest, bytes, manifest, tag)
        )
    }

    fn delete_blob(&mut self, repo: &RepoName, digest: &Digest) -> Result<(), Fault>
        requires there { AsksOf S.Store C.Contents O.is_ours self.old
            (λ w. is_some (blob_at w repo.now digest.now) ≡ true) }
        ensures { WritesOnce S.Store C.Contents O.is_ours self.old self.new result
            (λ w. delete_blob w repo.now digest.now) }
    {
        counted!(self, write_rows(repo, Write::DeleteBlob { digest }))
    }

    fn delete_blobs(&mut self, repo: &RepoName, digests: &[Digest]) -> Result<(), Fault>
        requires there { AsksOf S.Store C.Contents O.is_ours self.old (λ w. has_repo w repo.now ≡ true) }
        ensures { WritesOnce S.Store C.Contents O.is_ours self.old self.new result
            (λ w. delete_blobs w repo.now digests.now) }
    {
        counted!(self, write_rows(repo, Write::DeleteBlobs { digests }))
    }

    fn delete_manifest(&mut self, repo: &RepoName, digest: &Digest) -> Result<(), Fault>
        requires there { AsksOf S.Store C.Contents O.is_ours self.old
            (λ w. is_some (manifest_at w repo.now digest.now) ≡ true) }
        ensures { WritesOnce S.Store C.Contents O.is_ours self.old self.new result
            (λ w. delete_manifest w repo.now digest.now) }
    {
        counted!(self, write_rows(repo, Write::DeleteManifest { digest }))
    }

    fn delete_tag(&mut self, repo: &RepoName, tag: &Tag) -> Result<(), Fault>
        requires there { AsksOf S.Store C.Contents O.is_ours self.old
            (λ w. is_some (tag_at w repo.now tag.now) ≡ true) }
        ensures { WritesOnce S.Store C.Contents O.is_ours self.old self.new result
            (λ w. delete_tag w repo.now tag.now) }
    {
        counted!(self, write_rows(repo, Write::DeleteTag { tag }))
    }

    fn set_repo(&mut self, name: &RepoName, quota: Quota) -> Result<(), Fault>
        ensures { WritesOnce S.Store C.Contents O.is_ours self.old self.new result
            (λ w. set_repo w name.now quota.bytes) }
    {
        unless_spent!(self, set_repo(&mut self.conn, &mut self.known, name, quota))
    }

    fn drop_repo(&mut self, name: &RepoName) -> Result<(), Fault>
        requires there { AsksOf S.Store C.Contents O.is_ours self.old (λ w. has_repo w name.now ≡ true) }
        ensures { WritesOnce S.Store C.Contents O.is_ours self.old self.new result
            (λ w. drop_repo w name.now) }
    {
        unless_spent!(self, drop_repo(&mut self.conn, &mut self.known, name))
    }

    fn grant(&mut self, token: &Token, name: &RepoName, level: Level) -> Result<(), Fault>
        requires there { AsksOf S.Store C.Contents O.is_ours self.old (λ w. has_repo w name.now ≡ true) }
        ensures { WritesOnce S.Store C.Contents O.is_ours self.old self.new result
            (λ w. grant w token.now name.now level) }
    {
        unless_spent!(
            self,
            store_writes::grant(&mut self.conn, token, name, level)
        )
    }

    fn revoke(&mut self, token: &Token, name: &RepoName) -> Result<(), Fault>
        requires granted { AsksOf S.Store C.Contents O.is_ours self.old
            (λ w. is_some (level_at w token.now name.now) ≡ true) }
        ensures { WritesOnce S.Store C.Contents O.is_ours self.old self.new result
            (λ w. revoke w token.now name.now) }
    {
        unless_spent!(self, store_writes::revoke(&mut self.conn, token, name))
    }

    fn revoke_all(&mut self, token: &Token) -> Result<(), Fault>
        requires granted { AsksOf S.Store C.Contents O.is_ours self.old
            (λ w. is_known (w.grants token.now) ≡ true) }
        ensures { WritesOnce S.Store C.Contents O.is_ours self.old self.new result
            (λ w. revoke_all w token.now) }
    {
        unless_spent!(self, store_writes::revoke_all(&mut self.conn, token))
    }

    fn drop_sessions(&mut self, name: &RepoName) -> Result<(), Fault>
        requires there { AsksOf S.Store C.Contents O.is_ours self.old (λ w. has_repo w name.now ≡ true) }
        ensures { WritesOnce S.Store C.Contents O.is_ours self.old self.new result
            (λ w. drop_sessions w name.now) }
    {
        counted!(self, write_rows(name, Write::DropSessions))
    }

    /// Frees each content that no blob, manifest or upload session names: exactly the others stay, and the
    /// world does not change. A failure frees nothing.
    fn clear(&mut self) -> Result<(), Fault>
        ensures once { WritesOnce S.Store C.Contents O.is_ours self.old self.new result (λ w. w) }
        ensures freed { IsHonest S.Store C.Contents O.is_ours self.new
            → OnOk result
            (IsFreed S.Store C.Contents (both self.old) (both self.new)) }
    {
        unless_spent!(self, self.contents.clear(self.alloc, &mut self.conn))
    }
}
