//! Writes whose bytes are staged first, if they are kept elsewhere than in rows.
ghost use Rattle.std.specs.Prelude.{◌≡◌, ◌≤◌, ◌+◌, true, length, is_some, Ok, IfSome, IsTrue};
ghost use Rattle.sha2.specs.Sha256.{sha256};
ghost use Rattle.oci_types.specs.Digest.{matches};
ghost use Rattle.oci_types.specs.Manifest.{shown, manifest_in};
ghost use Rattle.registry_model.specs.Ask.{text_in};
ghost use Rattle.registry_model.specs.Limits.{largest_blob, largest_manifest};
ghost use Rattle.registry_model.specs.Lookups.{append, finish, put_blob, put_manifest, session_at};
ghost use Rattle.registry_model.specs.World.{has_repo};
ghost use Rattle.registry_store.specs.Calls.{CrashLeaves, Makes, StaysKnowing, StaysOnMemory, WorldHas};
ghost use Rattle.registry_store.specs.Kept.{IsClean};
ghost use Rattle.registry_store.specs.Staged.{Answers, IsGivenUp};

use crate::came::all_came;
use crate::counted_writes::make_counted;
use crate::known_usages::KnownUsages;
use crate::write::Write;
use crate::{counted_blobs, counted_sessions};
use oci_types::{Digest, Fault, Manifest, RepoName, Tag};
use sqlite::{Alter, Connection};
use std::alloc::Global;
use store_bytes::{Contents, Staged};

/// The answer to a write. What was staged for it is given up where no row names it.
fn settle<C: Contents>(
    contents: &mut C,
    staged: Staged,
    put: Result<bool, Fault>,
) -> Result<(), Fault>
    requires owned { C.Contents.owns contents.old staged }
    ensures answer { Answers put result }
    ensures given { IsGivenUp C.Contents staged contents.old contents.new }
    ensures came { put ≡ Ok true → contents.new ≡ contents.old }
    ensures clean { IsTrue (C.Contents.is_clean contents.new) → IsTrue (C.Contents.is_clean contents.old) }
{
    match put {
        Ok(true) => Ok(()),
        Ok(false) => {
            contents.give_up(staged);
            Ok(())
        }
        Err(Fault::Memory) => {
            contents.give_up(staged);
            Err(Fault::Memory)
        }
        Err(Fault::Storage) => Err(Fault::Storage),
    }
}

/// Puts a blob in; a digest that is there keeps its bytes.
pub(crate) fn put_blob<S: Alter, C: Contents>(
    alloc: Global,
    conn: &mut Connection<S>,
    known: &mut KnownUsages,
    contents: &mut C,
    repo: &RepoName,
    digest: &Digest,
    bytes: &[u8],
) -> Result<(), Fault>
    requires matching { matches digest.now bytes.now ≡ true }
    requires fits { length bytes.now ≤ largest_blob }
    ensures made { WorldHas S.Store C.Contents (conn.old, contents.old) (λ w. has_repo w repo.now ≡ true)
        → Makes S.Store C.Contents (conn.old, contents.old) (conn.new, contents.new) result
        (λ w. put_blob w repo.now digest.now bytes.now) }
    ensures memory { WorldHas S.Store C.Contents (conn.old, contents.old) (λ w. has_repo w repo.now ≡ true)
        → StaysOnMemory S.Store C.Contents (conn.old, contents.old) (conn.new, contents.new) result }
    ensures crash { WorldHas S.Store C.Contents (conn.old, contents.old) (λ w. has_repo w repo.now ≡ true)
        → CrashLeaves S.Store C.Contents (conn.old, contents.old) (conn.new, contents.new) result
        (λ w. put_blob w repo.now digest.now bytes.now) }
    ensures clean { IsClean S.Store C.Contents (conn.new, contents.new)
        → IsClean S.Store C.Contents (conn.old, contents.old) }
    ensures known { WorldHas S.Store C.Contents (conn.old, contents.old) (λ w. has_repo w repo.now ≡ true)
        → StaysKnowing S.Store C.Contents (conn.old, contents.old) (conn.new, contents.new) result
        known.old known.new }
{
    let staged = contents.stage(alloc, bytes, None)?;
    let source = staged.source(bytes);
    let put = counted_blobs::put_blob(alloc, conn, known, repo, digest, bytes, source);
    settle(contents, staged, put)
}

/// Puts bytes behind those of an open session, with their SHA-256 where it is known; none that it has are
/// touched.
pub(crate) fn append<S: Alter, C: Contents>(
    alloc: Global,
    conn: &mut Connection<S>,
    known: &mut KnownUsages,
    contents: &mut C,
    repo: &RepoName,
    number: u64,
    bytes: &[u8],
    hash: Option<[u8; 32]>,
) -> Result<(), Fault>
    requires hashed { IfSome hash (λ h. h ≡ sha256 bytes.now) }
    ensures made { WorldHas S.Store C.Contents (conn.old, contents.old)
        (λ w. is_some (session_at w repo.now number) ≡ true)
        → Makes S.Store C.Contents (conn.old, contents.old) (conn.new, contents.new) result
        (λ w. append w repo.now number bytes.now) }
    ensures memory { WorldHas S.Store C.Contents (conn.old, contents.old)
        (λ w. is_some (session_at w repo.now number) ≡ true)
        → StaysOnMemory S.Store C.Contents (conn.old, contents.old) (conn.new, contents.new) result }
    ensures crash { WorldHas S.Store C.Contents (conn.old, contents.old)
        (λ w. is_some (session_at w repo.now number) ≡ true)
        → CrashLeaves S.Store C.Contents (conn.old, contents.old) (conn.new, contents.new) result
        (λ w. append w repo.now number bytes.now) }
    ensures clean { IsClean S.Store C.Contents (conn.new, contents.new)
        → IsClean S.Store C.Contents (conn.old, contents.old) }
    ensures known { WorldHas S.Store C.Contents (conn.old, contents.old)
        (λ w. is_some (session_at w repo.now number) ≡ true)
        → StaysKnowing S.Store C.Contents (conn.old, contents.old) (conn.new, contents.new) result
        known.old known.new }
{
    let staged = contents.stage(alloc, bytes, hash)?;
    let source = staged.source(bytes);
    let put = counted_sessions::append(alloc, conn, known, repo, number, bytes, source, hash);
    settle(contents, staged, all_came(put))
}

/// Ends an open session, and these bytes are a blob; a digest that is there keeps its bytes.
pub(crate) fn finish<'a, S: Alter, C: Contents>(
    alloc: Global,
    conn: &mut Connection<S>,
    known: &mut KnownUsages,
    contents: &mut C,
    repo: &RepoName,
    number: u64,
    digest: &'a Digest,
    bytes: &'a [u8],
) -> Result<(), Fault>
    requires matching { matches digest.now bytes.now ≡ true }
    requires fits { length bytes.now ≤ largest_blob }
    ensures made { WorldHas S.Store C.Contents (conn.old, contents.old)
        (λ w. is_some (session_at w repo.now number) ≡ true)
        → Makes S.Store C.Contents (conn.old, contents.old) (conn.new, contents.new) result
        (λ w. finish w repo.now number digest.now bytes.now) }
    ensures memory { WorldHas S.Store C.Contents (conn.old, contents.old)
        (λ w. is_some (session_at w repo.now number) ≡ true)
        → StaysOnMemory S.Store C.Contents (conn.old, contents.old) (conn.new, contents.new) result }
    ensures crash { WorldHas S.Store C.Contents (conn.old, contents.old)
        (λ w. is_some (session_at w repo.now number) ≡ true)
        → CrashLeaves S.Store C.Contents (conn.old, contents.old) (conn.new, contents.new) result
        (λ w. finish w repo.now number digest.now bytes.now) }
    ensures clean { IsClean S.Store C.Contents (conn.new, contents.new)
        → IsClean S.Store C.Contents (conn.old, contents.old) }
    ensures known { WorldHas S.Store C.Contents (conn.old, contents.old)
        (λ w. is_some (session_at w repo.now number) ≡ true)
        → StaysKnowing S.Store C.Contents (conn.old, contents.old) (conn.new, contents.new) result
        known.old known.new }
{
    let staged = contents.stage(alloc, bytes, None)?;
    let source = staged.source(bytes);
    let write = Write::Finish {
        number,
        digest,
        bytes,
        source,
    };
    let put = make_counted(alloc, conn, known, repo, write);
    settle(contents, staged, put)
}

/// Puts a manifest in, and the tag, if there is one, names it.
pub(crate) fn put_manifest<'a, S: Alter, C: Contents>(
    alloc: Global,
    conn: &mut Connection<S>,
    known: &mut KnownUsages,
    contents: &mut C,
    repo: &RepoName,
    digest: &'a Digest,
    bytes: &'a [u8],
    manifest: &'a Manifest,
    tag: Option<&'a Tag>,
) -> Result<(), Fault>
    requires matching { matches digest.now bytes.now ≡ true }
    requires reads { manifest_in bytes.now ≡ Ok (shown manifest.now) }
    requires fits { length bytes.now ≤ largest_manifest }
    ensures made { WorldHas S.Store C.Contents (conn.old, contents.old) (λ w. has_repo w repo.now ≡ true)
        → Makes S.Store C.Contents (conn.old, contents.old) (conn.new, contents.new) result
        (λ w. put_manifest w repo.now digest.now bytes.now (text_in tag.entry)) }
    ensures memory { WorldHas S.Store C.Contents (conn.old, contents.old) (λ w. has_repo w repo.now ≡ true)
        → StaysOnMemory S.Store C.Contents (conn.old, contents.old) (conn.new, contents.new) result }
    ensures crash { WorldHas S.Store C.Contents (conn.old, contents.old) (λ w. has_repo w repo.now ≡ true)
        → CrashLeaves S.Store C.Contents (conn.old, contents.old) (conn.new, contents.new) result
        (λ w. put_manifest w repo.now digest.now bytes.now (text_in tag.entry)) }
    ensures clean { IsClean S.Store C.Contents (conn.new, contents.new)
        → IsClean S.Store C.Contents (conn.old, contents.old) }
    ensures known { WorldHas S.Store C.Contents (conn.old, contents.old) (λ w. has_repo w repo.now ≡ true)
        → StaysKnowing S.Store C.Contents (conn.old, contents.old) (conn.new, contents.new) result
        known.old known.new }
{
    let staged = contents.stage(alloc, bytes, None)?;
    let source = staged.source(bytes);
    let write = Write::PutManifest {
        digest,
        bytes,
        source,
        manifest,
        tag,
    };
    let put = make_counted(alloc, conn, known, repo, write);
    settle(contents, staged, put)
}
