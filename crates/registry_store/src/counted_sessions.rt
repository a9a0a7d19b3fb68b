//! Upload sessions that are opened, get bytes and end unread, with what is known of usages.
ghost use Rattle.std.specs.Prelude.{◌≡◌, ◌+◌, true, is_some, IfOk, IfSome};
ghost use Rattle.sha2.specs.Sha256.{sha256};
ghost use Rattle.sqlite.specs.State.{HasCleanDisk};
ghost use Rattle.sqlite.specs.Held.{state};
ghost use Rattle.registry_model.specs.World.{has_repo};
ghost use Rattle.registry_model.specs.Lookups.{append, last_number_at, open_session, session_at};
ghost use Rattle.registry_model.specs.Closing.{session_matches, finish_as_is};
ghost use Rattle.store_contents.specs.Layouts.{Layout};
ghost use Rattle.store_bytes.specs.Keeping.{AreOfKind};
ghost use Rattle.store_places.specs.Source.{Suits, text_in};
ghost use Rattle.store_statements.specs.Held.{IsSettled, SettlesOn, world_in};
ghost use Rattle.store_statements.specs.Between.{CrashLeaves, MakesWorld, Relates, StaysOnMemory};
ghost use Rattle.store_statements.specs.Clauses.{Lasts, WorldHas};
ghost use Rattle.store_statements.specs.PlaceChanges.{AddsPlaces, KeepsPlaces};
ghost use Rattle.store_writes.specs.Whole.{DoneWhereSo};
ghost use Rattle.registry_store.specs.Outcomes.{RowsLeaveWhereSo};
ghost use Rattle.registry_store.specs.Usages.{IsKnown, StaysKnown};
ghost use Rattle.registry_store.specs.Writes.{AreOf};

use crate::following::follow_made;
use crate::known_usages::KnownUsages;
use oci_types::{Digest, Fault, RepoName};
use sqlite::{Alter, Connection};
use std::alloc::Global;
use store_bytes::Contents;
use store_places::Source;
use store_reads::{Change, NO_CHANGE, known_end_change};

/// Opens an empty session under the number behind the repository's last, and answers it.
pub(crate) fn open_session<S: Alter>(
    conn: &mut Connection<S>,
    known: &mut KnownUsages,
    repo: &RepoName,
) -> Result<u64, Fault>
    ensures made { (l : Layout) → HasCleanDisk (state S.Store conn.new) → IsSettled l (state S.Store conn.old)
        → IfOk result
        (λ n. (n ≡ last_number_at (world_in l (state S.Store conn.old)) repo.now + 1) × SettlesOn l
        (state S.Store conn.new) (open_session (world_in l (state S.Store conn.old)) repo.now)) }
    ensures places { (l : Layout) → Relates S.Store l conn.old conn.new result KeepsPlaces }
    ensures memory { (l : Layout) → StaysOnMemory S.Store l conn.old conn.new result }
    ensures crash { (l : Layout)
        → CrashLeaves S.Store l conn.old conn.new result (λ w. open_session w repo.now) }
    ensures survives { Lasts S.Store conn.old conn.new }
    ensures known { (l : Layout) → IsKnown S.Store l conn.old known.old
        → WorldHas S.Store l conn.old (λ w. has_repo w repo.now ≡ true)
        → StaysKnown S.Store l conn.old conn.new known.new result }
{
    let one_more = Change {
        opened: 1,
        ..NO_CHANGE
    };
    let opened = store_writes::open_session(conn, repo);
    follow_made(known, repo, Some(one_more), &opened);
    opened
}

/// Puts bytes behind those of an open session, with their SHA-256 where it is known; none that it has are
/// touched.
pub(crate) fn append<S: Alter>(
    alloc: Global,
    conn: &mut Connection<S>,
    known: &mut KnownUsages,
    repo: &RepoName,
    number: u64,
    bytes: &[u8],
    source: Source<'_>,
    hash: Option<[u8; 32]>,
) -> Result<(), Fault>
    requires hashed { IfSome hash (λ h. h ≡ sha256 bytes.now) }
    requires kept { AreOf source bytes.now }
    ensures made { (l : Layout) → Suits l source.entry → text_in l source.entry ≡ bytes.now
        → WorldHas S.Store l conn.old (λ w. is_some (session_at w repo.now number) ≡ true)
        → MakesWorld S.Store l conn.old conn.new result (λ w. append w repo.now number bytes.now) }
    ensures places { (l : Layout) → Suits l source.entry
        → Relates S.Store l conn.old conn.new result (AddsPlaces source.entry) }
    ensures memory { (l : Layout) → Suits l source.entry → StaysOnMemory S.Store l conn.old conn.new result }
    ensures crash { (l : Layout) → Suits l source.entry → text_in l source.entry ≡ bytes.now
        → WorldHas S.Store l conn.old (λ w. is_some (session_at w repo.now number) ≡ true)
        → CrashLeaves S.Store l conn.old conn.new result (λ w. append w repo.now number bytes.now) }
    ensures survives { Lasts S.Store conn.old conn.new }
    ensures known { (l : Layout) → Suits l source.entry → text_in l source.entry ≡ bytes.now
        → IsKnown S.Store l conn.old known.old
        → WorldHas S.Store l conn.old (λ w. is_some (session_at w repo.now number) ≡ true)
        → StaysKnown S.Store l conn.old conn.new known.new result }
{
    let longer = Change {
        added: bytes.len() as u64,
        ..NO_CHANGE
    };
    let made = store_writes::append(alloc, conn, repo, number, source, hash);
    follow_made(known, repo, Some(longer), &made);
    made
}

/// Ends an open session whose bytes are known to match the digest, and they are a blob; a digest that is
/// there keeps its bytes. Answers whether it did so; where it did not, nothing has changed.
pub(crate) fn finish_known<S: Alter, C: Contents>(
    alloc: Global,
    conn: &mut Connection<S>,
    known: &mut KnownUsages,
    contents: &C,
    repo: &RepoName,
    number: u64,
    digest: &Digest,
) -> Result<bool, Fault>
    ensures made { (l : Layout) → AreOfKind (C.Contents.layout contents.now) l
        → HasCleanDisk (state S.Store conn.new) → IsSettled l (state S.Store conn.old)
        → IfOk result
        (λ done. DoneWhereSo l done (state S.Store conn.old) (state S.Store conn.new)
        (λ w. session_matches w repo.now number digest.now)
        (λ w. finish_as_is w repo.now number digest.now)) }
    ensures places { (l : Layout) → AreOfKind (C.Contents.layout contents.now) l
        → Relates S.Store l conn.old conn.new result KeepsPlaces }
    ensures memory { (l : Layout) → AreOfKind (C.Contents.layout contents.now) l
        → StaysOnMemory S.Store l conn.old conn.new result }
    ensures crash { (l : Layout) → AreOfKind (C.Contents.layout contents.now) l
        → HasCleanDisk (state S.Store conn.new) → IsSettled l (state S.Store conn.old)
        → RowsLeaveWhereSo l (state S.Store conn.old) (state S.Store conn.new) result
        (λ w. session_matches w repo.now number digest.now)
        (λ w. finish_as_is w repo.now number digest.now) }
    ensures survives { Lasts S.Store conn.old conn.new }
    ensures known { (l : Layout) → AreOfKind (C.Contents.layout contents.now) l
        → IsKnown S.Store l conn.old known.old
        → StaysKnown S.Store l conn.old conn.new known.new result }
{
    match store_writes::finish_known(alloc, conn, contents, repo, number, digest) {
        Ok(Some(end)) => {
            known.follow(repo, Some(known_end_change(end.size, end.came)));
            Ok(true)
        }
        Ok(None) => Ok(false),
        Err(fault) => Err(fault),
    }
}
