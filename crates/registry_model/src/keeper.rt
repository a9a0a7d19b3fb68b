ghost use Rattle.std.specs.Prelude.{◌≡◌, ◌≤◌, ◌<◌, ◌+◌, true, false, length, is_some, Option, Result, Ok, IfSome};
ghost use Rattle.sha2.specs.Sha256.{sha256};
ghost use Rattle.oci_types.specs.Digest.{matches};
ghost use Rattle.oci_types.specs.Manifest.{shown, manifest_in};
ghost use Rattle.registry_model.specs.Limits.{largest, largest_blob, largest_manifest, most_sessions};
ghost use Rattle.registry_model.specs.World.{is_known, has_repo, level_at};
ghost use Rattle.registry_model.specs.Lookups.{AreLevelsOn, AreLevelsOver, repo_names_of, repo_count, tags_at, blob_at, blob_size_at, manifest_at, manifest_size_at, tag_at, page_at, manifests_on_at, session_at, session_size_at, sessions_open_at, last_number_at, usage_at, usages_of, blob_digests_at, manifest_digests_at, bytes_or_none, put_blob, open_session, append, finish, mount, put_manifest, delete_blob, delete_manifest, delete_tag};
ghost use Rattle.registry_model.specs.Command.{set_repo, drop_repo, grant, revoke, revoke_all, drop_sessions};
ghost use Rattle.registry_model.specs.Pruning.{delete_blobs};
ghost use Rattle.registry_model.specs.Ask.{text_in};
ghost use Rattle.registry_model.specs.Keeping.{Kept, Asks, Reads, ReadsBy, ReadsSo, Writes, WritesBy, Spends, bytes_in, shared_in, manifest_shown, page_shown, entries_shown, usages_shown, digests_shown, names_shown, tags_shown};
ghost use Rattle.registry_model.specs.Closing.{session_matches, finish_as_is, WritesWhereSo};

pub use crate::outcome::{Found, Hash, Outcome};
use crate::{Grant, Level, Quota, Usage};
use oci_types::{Digest, Fault, Kind, Manifest, RepoName, Tag, Token};
use std::alloc::Global;
use std::rc::Rc;

/// What keeps a registry's world. After `Fault::Memory` nothing has changed; after `Fault::Storage` the
/// keeper is spent, and answers `Storage` alone. A read leaves the world as it is, and finds nothing in a
/// repository that is not there. A write makes its one change and leaves every other repository, session,
/// grant and number; what it asks for, a read tells. No call of these changes what is held beside the world.
pub trait Keeper {
    // The world that it keeps, whether it is spent, and what it holds beside the world.
    ghost kept: { Self → Kept };

    // So far the storage has returned what was written, and nobody else wrote it.
    ghost is_honest: { Self → Type 0 };

    /// Whether the storage has failed; takes no memory.
    fn spent(&self) -> bool
        ensures { result ≡ (kept self.now).spent };

    /// Whether the token has a grant.
    fn known(&mut self, token: &Token) -> Result<bool, Fault>
        ensures found { is_honest self.new → Reads result (is_known ((kept self.old).world.grants token.now))
            (kept self.old) (kept self.new) }
        ensures spends { Spends result (kept self.old) (kept self.new) }
        ensures honest { is_honest self.new → is_honest self.old };

    /// Whether the repository is there.
    fn has_repo(&mut self, repo: &RepoName) -> Result<bool, Fault>
        ensures found { is_honest self.new
            → Reads result (has_repo (kept self.old).world repo.now) (kept self.old) (kept self.new) }
        ensures spends { Spends result (kept self.old) (kept self.new) }
        ensures honest { is_honest self.new → is_honest self.old };

    /// The names of the repositories, in byte order. Reads nothing of what they hold.
    fn repo_names(&mut self, alloc: Global) -> Result<Vec<RepoName>, Fault>
        ensures found { is_honest self.new → ReadsBy names_shown result
            (repo_names_of (kept self.old).world) (kept self.old) (kept self.new) }
        ensures spends { Spends result (kept self.old) (kept self.new) }
        ensures honest { is_honest self.new → is_honest self.old };

    /// How many repositories there are.
    fn count_repos(&mut self) -> Result<u64, Fault>
        ensures found { is_honest self.new → Reads result (repo_count (kept self.old).world)
            (kept self.old) (kept self.new) }
        ensures spends { Spends result (kept self.old) (kept self.new) }
        ensures honest { is_honest self.new → is_honest self.old };

    /// The level of a token on a repository, where it has one.
    fn level(&mut self, token: &Token, repo: &RepoName) -> Found<Level>
        ensures found { is_honest self.new → Reads result (level_at (kept self.old).world token.now repo.now)
            (kept self.old) (kept self.new) }
        ensures spends { Spends result (kept self.old) (kept self.new) }
        ensures honest { is_honest self.new → is_honest self.old };

    /// The bytes of a blob. They may be shared with others that read it.
    fn blob(&mut self, alloc: Global, repo: &RepoName, digest: &Digest) -> Found<Rc<Vec<u8>>>
        ensures found { is_honest self.new → ReadsBy shared_in result
            (blob_at (kept self.old).world repo.now digest.now) (kept self.old) (kept self.new) }
        ensures spends { Spends result (kept self.old) (kept self.new) }
        ensures honest { is_honest self.new → is_honest self.old };

    /// The length of a blob in bytes. Reads no blob.
    fn blob_size(&mut self, repo: &RepoName, digest: &Digest) -> Found<u64>
        ensures found { is_honest self.new → Reads result
            (blob_size_at (kept self.old).world repo.now digest.now) (kept self.old) (kept self.new) }
        ensures spends { Spends result (kept self.old) (kept self.new) }
        ensures honest { is_honest self.new → is_honest self.old };

    /// The kind and the bytes of a manifest.
    fn manifest(
        &mut self,
        alloc: Global,
        repo: &RepoName,
        digest: &Digest,
    ) -> Found<(Kind, Vec<u8>)>
        ensures found { is_honest self.new → ReadsBy manifest_shown result
            (manifest_at (kept self.old).world repo.now digest.now) (kept self.old) (kept self.new) }
        ensures spends { Spends result (kept self.old) (kept self.new) }
        ensures honest { is_honest self.new → is_honest self.old };

    /// The kind of a manifest, and its length in bytes. Reads no manifest.
    fn manifest_size(&mut self, repo: &RepoName, digest: &Digest) -> Found<(Kind, u64)>
        ensures found { is_honest self.new → Reads result
            (manifest_size_at (kept self.old).world repo.now digest.now) (kept self.old) (kept self.new) }
        ensures spends { Spends result (kept self.old) (kept self.new) }
        ensures honest { is_honest self.new → is_honest self.old };

    /// The digest that a tag names.
    fn tag(&mut self, alloc: Global, repo: &RepoName, tag: &Tag) -> Found<Digest>
        ensures found { is_honest self.new → Reads result (tag_at (kept self.old).world repo.now tag.now)
            (kept self.old) (kept self.new) }
        ensures spends { Spends result (kept self.old) (kept self.new) }
        ensures honest { is_honest self.new → is_honest self.old };

    /// The tags of a repository, in byte order, each with the digest that it names.
    fn tags(&mut self, alloc: Global, repo: &RepoName) -> Result<Vec<(Tag, Digest)>, Fault>
        ensures found { is_honest self.new → ReadsBy tags_shown result
            (tags_at (kept self.old).world repo.now) (kept self.old) (kept self.new) }
        ensures spends { Spends result (kept self.old) (kept self.new) }
        ensures honest { is_honest self.new → is_honest self.old };

    /// The first `n` tags, or all, behind `last` in byte order, and whether more follow, unless `n` is 0.
    fn tags_after(
        &mut self,
        alloc: Global,
        repo: &RepoName,
        last: &str,
        n: Option<u64>,
    ) -> Result<(Vec<Tag>, bool), Fault>
        ensures found { is_honest self.new → ReadsBy page_shown result
            (page_at (kept self.old).world repo.now last.now n) (kept self.old) (kept self.new) }
        ensures spends { Spends result (kept self.old) (kept self.new) }
        ensures honest { is_honest self.new → is_honest self.old };

    /// Digests and bytes of the manifests whose subject is the digest, in byte order of their own digests.
    fn manifests_of_subject(
        &mut self,
        alloc: Global,
        repo: &RepoName,
        digest: &Digest,
    ) -> Result<Vec<(Digest, Vec<u8>)>, Fault>
        ensures found { is_honest self.new → ReadsBy entries_shown result
            (manifests_on_at (kept self.old).world repo.now digest.now) (kept self.old) (kept self.new) }
        ensures spends { Spends result (kept self.old) (kept self.new) }
        ensures honest { is_honest self.new → is_honest self.old };

    /// The length in bytes of an open upload session. Reads no byte of it.
    fn session_size(&mut self, repo: &RepoName, number: u64) -> Found<u64>
        ensures found { is_honest self.new → Reads result
            (session_size_at (kept self.old).world repo.now number) (kept self.old) (kept self.new) }
        ensures spends { Spends result (kept self.old) (kept self.new) }
        ensures honest { is_honest self.new → is_honest self.old };

    /// The bytes of an open upload session.
    fn session(&mut self, alloc: Global, repo: &RepoName, number: u64) -> Found<Vec<u8>>
        ensures found { is_honest self.new → ReadsBy bytes_in result
            (session_at (kept self.old).world repo.now number) (kept self.old) (kept self.new) }
        ensures spends { Spends result (kept self.old) (kept self.new) }
        ensures honest { is_honest self.new → is_honest self.old };

    /// How many upload sessions are open; 0 where the repository is not there.
    fn sessions_open(&mut self, repo: &RepoName) -> Result<u64, Fault>
        ensures found { is_honest self.new → Reads result (sessions_open_at (kept self.old).world repo.now)
            (kept self.old) (kept self.new) }
        ensures spends { Spends result (kept self.old) (kept self.new) }
        ensures honest { is_honest self.new → is_honest self.old };

    /// The last number that an upload session got; 0 where none did.
    fn last_number(&mut self, repo: &RepoName) -> Result<u64, Fault>
        ensures found { is_honest self.new → Reads result (last_number_at (kept self.old).world repo.now)
            (kept self.old) (kept self.new) }
        ensures spends { Spends result (kept self.old) (kept self.new) }
        ensures honest { is_honest self.new → is_honest self.old };

    /// What a repository holds and may hold. Reads no blob and no manifest.
    fn usage(&mut self, repo: &RepoName) -> Result<Usage, Fault>
        ensures found { is_honest self.new
            → Reads result (usage_at (kept self.old).world repo.now) (kept self.old) (kept self.new) }
        ensures spends { Spends result (kept self.old) (kept self.new) }
        ensures honest { is_honest self.new → is_honest self.old };

    /// What each repository holds and may hold, in byte order of names.
    fn usages(&mut self, alloc: Global) -> Result<Vec<(RepoName, Usage)>, Fault>
        ensures found { is_honest self.new → ReadsBy usages_shown result (usages_of (kept self.old).world)
            (kept self.old) (kept self.new) }
        ensures spends { Spends result (kept self.old) (kept self.new) }
        ensures honest { is_honest self.new → is_honest self.old };

    /// The tokens that have a level on a repository, in byte order, with their levels.
    fn levels(&mut self, alloc: Global, repo: &RepoName) -> Result<Vec<(Token, Level)>, Fault>
        ensures found { is_honest self.new
            → ReadsSo (λ v. AreLevelsOn (kept self.old).world repo.now v.items) result
            (kept self.old) (kept self.new) }
        ensures spends { Spends result (kept self.old) (kept self.new) }
        ensures honest { is_honest self.new → is_honest self.old };

    /// Each level of a token on a repository, in byte order of the repositories, and on each of the tokens.
    fn grants(&mut self, alloc: Global) -> Result<Vec<Grant>, Fault>
        ensures found { is_honest self.new → ReadsSo (λ v. let w = (kept self.old).world in
            AreLevelsOver w (repo_names_of w) v.items) result (kept self.old) (kept self.new) }
        ensures spends { Spends result (kept self.old) (kept self.new) }
        ensures honest { is_honest self.new → is_honest self.old };

    /// The digests of a repository's blobs, in byte order. Reads no blob.
    fn blob_digests(&mut self, alloc: Global, repo: &RepoName) -> Result<Vec<Digest>, Fault>
        ensures found { is_honest self.new → ReadsBy digests_shown result
            (blob_digests_at (kept self.old).world repo.now) (kept self.old) (kept self.new) }
        ensures spends { Spends result (kept self.old) (kept self.new) }
        ensures honest { is_honest self.new → is_honest self.old };

    /// The digests of a repository's manifests, in byte order. Reads no manifest.
    fn manifest_digests(&mut self, alloc: Global, repo: &RepoName) -> Result<Vec<Digest>, Fault>
        ensures found { is_honest self.new → ReadsBy digests_shown result
            (manifest_digests_at (kept self.old).world repo.now) (kept self.old) (kept self.new) }
        ensures spends { Spends result (kept self.old) (kept self.new) }
        ensures honest { is_honest self.new → is_honest self.old };

    /// Adds a blob to a repository that is there (`has_repo` tells), under a digest that the bytes
    /// match (`Digest::verifies` tells); of at most 67,108,864 bytes. A digest that is there keeps its bytes.
    fn put_blob(&mut self, repo: &RepoName, digest: &Digest, bytes: &[u8]) -> Result<(), Fault>
        requires there { Asks (is_honest self.old) (kept self.old) (λ w. has_repo w repo.now ≡ true) }
        requires matching { matches digest.now bytes.now ≡ true }
        requires fits { length bytes.now ≤ largest_blob }
        ensures made { is_honest self.new
            → Writes result (put_blob (kept self.old).world repo.now digest.now bytes.now)
            (kept self.old) (kept self.new) }
        ensures spends { Spends result (kept self.old) (kept self.new) }
        ensures honest { is_honest self.new → is_honest self.old };

    /// Opens an empty upload session under the number behind the last one, and answers it. Fewer than 1,000
    /// are open (`sessions_open` tells), and the last is below 9,223,372,036,854,775,807 (`last_number`).
    fn open_session(&mut self, repo: &RepoName) -> Result<u64, Fault>
        requires there { Asks (is_honest self.old) (kept self.old) (λ w. has_repo w repo.now ≡ true) }
        requires few { Asks (is_honest self.old) (kept self.old)
            (λ w. sessions_open_at w repo.now < most_sessions) }
        requires below { Asks (is_honest self.old) (kept self.old)
            (λ w. last_number_at w repo.now < largest) }
        ensures made { is_honest self.new
            → WritesBy (λ n. n) result (last_number_at (kept self.old).world repo.now + 1)
            (open_session (kept self.old).world repo.now) (kept self.old) (kept self.new) }
        ensures spends { Spends result (kept self.old) (kept self.new) }
        ensures honest { is_honest self.new → is_honest self.old };

    /// Puts bytes behind those of an open upload session (`session_size` tells), which then has at most
    /// 67,108,864. Touches none that it has. Who has hashed them says so: they need not be hashed again.
    fn append(&mut self, repo: &RepoName, number: u64, bytes: &[u8], hash: Option<Hash>) -> Outcome
        requires hashed { IfSome hash (λ h. h ≡ sha256 bytes.now) }
        requires open { Asks (is_honest self.old) (kept self.old)
            (λ w. is_some (session_at w repo.now number) ≡ true) }
        requires fits { Asks (is_honest self.old) (kept self.old)
            (λ w. length (bytes_or_none (session_at w repo.now number)) + length bytes.now ≤ largest_blob) }
        ensures made { is_honest self.new → Writes result
            (append (kept self.old).world repo.now number bytes.now) (kept self.old) (kept self.new) }
        ensures spends { Spends result (kept self.old) (kept self.new) }
        ensures honest { is_honest self.new → is_honest self.old };

    /// Ends an open session and adds its whole bytes, the last chunk with them, as a blob of that digest.
    fn finish(&mut self, repo: &RepoName, number: u64, digest: &Digest, bytes: &[u8]) -> Outcome
        requires open { Asks (is_honest self.old) (kept self.old)
            (λ w. is_some (session_at w repo.now number) ≡ true) }
        requires matching { matches digest.now bytes.now ≡ true }
        requires fits { length bytes.now ≤ largest_blob }
        ensures made { is_honest self.new
            → Writes result (finish (kept self.old).world repo.now number digest.now bytes.now)
            (kept self.old) (kept self.new) }
        ensures spends { Spends result (kept self.old) (kept self.new) }
        ensures honest { is_honest self.new → is_honest self.old };

    /// As `finish`, of a session that has its whole bytes, where the keeper knows without reading them that
    /// the digest is theirs; answers whether it did so. A keeper may always answer `false`: then nothing
    /// has changed, and nothing is said of session, bytes or digest (`session` and `finish` go on).
    fn finish_known(&mut self, repo: &RepoName, number: u64, digest: &Digest) -> Result<bool, Fault>
        ensures made { is_honest self.new
            → WritesWhereSo result (session_matches (kept self.old).world repo.now number digest.now)
            (finish_as_is (kept self.old).world repo.now number digest.now)
            (kept self.old) (kept self.new) }
        ensures spends { Spends result (kept self.old) (kept self.new) }
        ensures honest { is_honest self.new → is_honest self.old };

    /// Adds a blob that another repository has (`blob_size` tells), or the same one.
    fn mount(&mut self, from: &RepoName, to: &RepoName, digest: &Digest) -> Result<(), Fault>
        requires there { Asks (is_honest self.old) (kept self.old) (λ w. has_repo w to.now ≡ true) }
        requires source { Asks (is_honest self.old) (kept self.old)
            (λ w. is_some (blob_at w from.now digest.now) ≡ true) }
        ensures made { is_honest self.new → Writes result
            (mount (kept self.old).world from.now to.now digest.now) (kept self.old) (kept self.new) }
        ensures spends { Spends result (kept self.old) (kept self.new) }
        ensures honest { is_honest self.new → is_honest self.old };

    /// Adds a manifest under a digest that its bytes match, and sets the tag to it, if one is given; of at
    /// most 4,194,304 bytes, which read as `manifest`. A digest that is there keeps its bytes.
    fn put_manifest(
        &mut self,
        repo: &RepoName,
        digest: &Digest,
        bytes: &[u8],
        manifest: &Manifest,
        tag: Option<&Tag>,
    ) -> Result<(), Fault>
        requires there { Asks (is_honest self.old) (kept self.old) (λ w. has_repo w repo.now ≡ true) }
        requires matching { matches digest.now bytes.now ≡ true }
        requires reads { manifest_in bytes.now ≡ Ok (shown manifest.now) }
        requires fits { length bytes.now ≤ largest_manifest }
        ensures made { is_honest self.new → Writes result
            (put_manifest (kept self.old).world repo.now digest.now bytes.now (text_in tag.entry))
            (kept self.old) (kept self.new) }
        ensures spends { Spends result (kept self.old) (kept self.new) }
        ensures honest { is_honest self.new → is_honest self.old };

    /// Takes a blob away (`blob_size` tells that it is there).
    fn delete_blob(&mut self, repo: &RepoName, digest: &Digest) -> Result<(), Fault>
        requires there { Asks (is_honest self.old) (kept self.old)
            (λ w. is_some (blob_at w repo.now digest.now) ≡ true) }
        ensures made { is_honest self.new → Writes result
            (delete_blob (kept self.old).world repo.now digest.now) (kept self.old) (kept self.new) }
        ensures spends { Spends result (kept self.old) (kept self.new) }
        ensures honest { is_honest self.new → is_honest self.old };

    /// Takes blobs away, all or none; a digest of which there is no blob changes nothing.
    fn delete_blobs(&mut self, repo: &RepoName, digests: &[Digest]) -> Result<(), Fault>
        requires there { Asks (is_honest self.old) (kept self.old) (λ w. has_repo w repo.now ≡ true) }
        ensures made { is_honest self.new → Writes result
            (delete_blobs (kept self.old).world repo.now digests.now) (kept self.old) (kept self.new) }
        ensures spends { Spends result (kept self.old) (kept self.new) }
        ensures honest { is_honest self.new → is_honest self.old };

    /// Takes a manifest away (`manifest_size` tells that it is there), and each tag that names it.
    fn delete_manifest(&mut self, repo: &RepoName, digest: &Digest) -> Result<(), Fault>
        requires there { Asks (is_honest self.old) (kept self.old)
            (λ w. is_some (manifest_at w repo.now digest.now) ≡ true) }
        ensures made { is_honest self.new → Writes result
            (delete_manifest (kept self.old).world repo.now digest.now) (kept self.old) (kept self.new) }
        ensures spends { Spends result (kept self.old) (kept self.new) }
        ensures honest { is_honest self.new → is_honest self.old };

    /// Takes a tag away (`tag` tells that it is there).
    fn delete_tag(&mut self, repo: &RepoName, tag: &Tag) -> Result<(), Fault>
        requires there { Asks (is_honest self.old) (kept self.old)
            (λ w. is_some (tag_at w repo.now tag.now) ≡ true) }
        ensures made { is_honest self.new → Writes result (delete_tag (kept self.old).world repo.now tag.now)
            (kept self.old) (kept self.new) }
        ensures spends { Spends result (kept self.old) (kept self.new) }
        ensures honest { is_honest self.new → is_honest self.old };

    /// Makes an empty repository, or sets the quota of one that is there and changes nothing else.
    fn set_repo(&mut self, name: &RepoName, quota: Quota) -> Result<(), Fault>
        ensures made { is_honest self.new → Writes result
            (set_repo (kept self.old).world name.now quota.bytes) (kept self.old) (kept self.new) }
        ensures spends { Spends result (kept self.old) (kept self.new) }
        ensures honest { is_honest self.new → is_honest self.old };

    /// Takes a repository that is there away, with what it holds and every level on it.
    fn drop_repo(&mut self, name: &RepoName) -> Result<(), Fault>
        requires there { Asks (is_honest self.old) (kept self.old) (λ w. has_repo w name.now ≡ true) }
        ensures made { is_honest self.new
            → Writes result (drop_repo (kept self.old).world name.now) (kept self.old) (kept self.new) }
        ensures spends { Spends result (kept self.old) (kept self.new) }
        ensures honest { is_honest self.new → is_honest self.old };

    /// Gives a token a level on a repository that is there, in the place of the one that it has.
    fn grant(&mut self, token: &Token, name: &RepoName, level: Level) -> Result<(), Fault>
        requires there { Asks (is_honest self.old) (kept self.old) (λ w. has_repo w name.now ≡ true) }
        ensures made { is_honest self.new → Writes result
            (grant (kept self.old).world token.now name.now level) (kept self.old) (kept self.new) }
        ensures spends { Spends result (kept self.old) (kept self.new) }
        ensures honest { is_honest self.new → is_honest self.old };

    /// Takes the level of a token on a repository away (`level` tells that it has one).
    fn revoke(&mut self, token: &Token, name: &RepoName) -> Result<(), Fault>
        requires granted { Asks (is_honest self.old) (kept self.old)
            (λ w. is_some (level_at w token.now name.now) ≡ true) }
        ensures made { is_honest self.new → Writes result (revoke (kept self.old).world token.now name.now)
            (kept self.old) (kept self.new) }
        ensures spends { Spends result (kept self.old) (kept self.new) }
        ensures honest { is_honest self.new → is_honest self.old };

    /// Takes every level of a token away (`known` tells that it has one).
    fn revoke_all(&mut self, token: &Token) -> Result<(), Fault>
        requires granted { Asks (is_honest self.old) (kept self.old)
            (λ w. is_known (w.grants token.now) ≡ true) }
        ensures made { is_honest self.new → Writes result (revoke_all (kept self.old).world token.now)
            (kept self.old) (kept self.new) }
        ensures spends { Spends result (kept self.old) (kept self.new) }
        ensures honest { is_honest self.new → is_honest self.old };

    /// Ends every open upload session of a repository that is there; the last number stays.
    fn drop_sessions(&mut self, name: &RepoName) -> Result<(), Fault>
        requires there { Asks (is_honest self.old) (kept self.old) (λ w. has_repo w name.now ≡ true) }
        ensures made { is_honest self.new → Writes result (drop_sessions (kept self.old).world name.now)
            (kept self.old) (kept self.new) }
        ensures spends { Spends result (kept self.old) (kept self.new) }
        ensures honest { is_honest self.new → is_honest self.old };

    /// Frees what no repository holds any more; the world stays.
    fn clear(&mut self) -> Result<(), Fault>
        ensures made { is_honest self.new
            → Writes result ((kept self.old).world) (kept self.old) (kept self.new) }
        ensures spends { Spends result (kept self.old) (kept self.new) }
        ensures honest { is_honest self.new → is_honest self.old };
}
