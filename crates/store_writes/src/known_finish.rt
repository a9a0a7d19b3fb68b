//! An upload session ends whose bytes are known unread: its content becomes a blob's.
ghost use Rattle.std.specs.Prelude.{◌≡◌, ◌<◌, ◌^◌, find, is_some, is_none, None, Some, IfOk, IfSome};
ghost use Rattle.sqlite.specs.State.{HasCleanDisk};
ghost use Rattle.sqlite.specs.Held.{state};
ghost use Rattle.registry_model.specs.Lookups.{blob_at, session_size_at};
ghost use Rattle.registry_model.specs.Closing.{session_matches, finish_as_is};
ghost use Rattle.store_contents.specs.Layouts.{Layout};
ghost use Rattle.store_bytes.specs.Keeping.{AreOfKind};
ghost use Rattle.store_statements.specs.Keys.{has_key};
ghost use Rattle.store_statements.specs.Between.{CrashLeaves, Finds, GoesBack, MakesWorld, Relates, StaysOnMemory, Tells};
ghost use Rattle.store_statements.specs.Clauses.{KeepsInside, Lasts, LastsUncommitted, TablesHave};
ghost use Rattle.store_statements.specs.Held.{IsSettled};
ghost use Rattle.store_writes.specs.Whole.{known_link, CrashEnds, DoneWhereSo, WholeEnds};
ghost use Rattle.store_statements.specs.StepsFrom.{StepsFrom};
ghost use Rattle.store_statements.specs.PlaceChanges.{KeepsPlaces};

use crate::change::Change;
use crate::changing::{make, tell_came};
use crate::session_change::SessionChange;
use crate::session_changes::take_session;
use crate::whole_sessions::find_known;
use oci_types::{Digest, Fault, RepoName};
use sqlite::{Alter, Connection, Transaction};
use std::alloc::Global;
use store_bytes::Contents;
use store_statements::blobs::{BlobLink, add_blob_link, find_blob_link};
use store_statements::numbers::LARGEST;

/// What the end of a session did that is known to match a digest.
#[derive(Clone, Copy)]
pub struct KnownEnd {
    /// How many bytes the session had.
    pub size: u64,
    /// Whether its bytes came as a blob: a digest that was there keeps its own.
    pub came: bool,
}

/// Takes a session out, and puts a link to its content in that the repository has not.
pub(crate) fn end_whole<S: Alter>(
    tx: &mut Transaction<'_, S>,
    repo: &str,
    number: u64,
    digest: &str,
    link: BlobLink,
) -> Result<(), Fault>
    requires number_fits { number < 2 ^ 63 }
    requires fits { link.size < 2 ^ 63 }
    ensures ended { (l : Layout) → StepsFrom S.Store l tx.old.conn.now tx.new.conn.now result
        (λ t. find (has_key repo.now digest.now) t.blobs ≡ None)
        (λ t u. WholeEnds t u repo.now number digest.now link) }
    ensures kept { (l : Layout) → KeepsInside S.Store l tx.old.conn.now tx.new.conn.now }
    ensures same_reference { tx.new.conn.ghost_name ≡ tx.old.conn.ghost_name }
    ensures survives { LastsUncommitted S.Store tx.old.conn.now tx.new.conn.now }
{
    match take_session(tx, repo, number) {
        Ok(()) => add_blob_link(tx, repo, digest, link.size, link.content),
        Err(fault) => Err(fault),
    }
}

/// Ends a session whose link is known, and answers whether the blob came: a digest that is there keeps its
/// bytes.
fn finish_whole<S: Alter>(
    conn: &mut Connection<S>,
    repo: &str,
    number: u64,
    digest: &str,
    link: BlobLink,
) -> Result<bool, Fault>
    requires number_fits { number < 2 ^ 63 }
    ensures made { (l : Layout)
        → TablesHave S.Store l conn.old (λ t. Some link ≡ known_link t repo.now number digest.now)
        → MakesWorld S.Store l conn.old conn.new result
        (λ w. finish_as_is w repo.now number digest.now) }
    ensures came { (l : Layout) → Tells S.Store l conn.old conn.new result
        (λ w came. came ≡ is_none (blob_at w repo.now digest.now)) }
    ensures stays { (l : Layout)
        → Relates S.Store l conn.old conn.new result (λ t u. u.contents ≡ t.contents) }
    ensures places { (l : Layout) → Relates S.Store l conn.old conn.new result KeepsPlaces }
    ensures memory { (l : Layout) → StaysOnMemory S.Store l conn.old conn.new result }
    ensures back { (l : Layout) → GoesBack S.Store l conn.old conn.new result }
    ensures crash { (l : Layout)
        → TablesHave S.Store l conn.old (λ t. Some link ≡ known_link t repo.now number digest.now)
        → CrashLeaves S.Store l conn.old conn.new result
        (λ w. finish_as_is w repo.now number digest.now) }
    ensures survives { Lasts S.Store conn.old conn.new }
{
    match find_blob_link(conn, repo, digest) {
        Ok(Some(_)) => {
            let taken = SessionChange::Take { repo, number };
            tell_came(make(conn, Change::Session(taken)), false)
        }
        // each size that a row has fits
        Ok(None) if link.size <= LARGEST => {
            let ended = SessionChange::Link {
                repo,
                number,
                digest,
                link,
            };
            tell_came(make(conn, Change::Session(ended)), true)
        }
        Ok(None) => Err(Fault::Storage),
        Err(fault) => Err(fault),
    }
}

/// Ends an open session of one piece whose content has the digest, one of sha256: the blob gets that content,
/// and no byte is read or written. Answers what it did; where it did not, nothing has changed. A digest that
/// is there keeps its bytes.
pub fn finish_known<S: Alter, C: Contents>(
    alloc: Global,
    conn: &mut Connection<S>,
    contents: &C,
    repo: &RepoName,
    number: u64,
    digest: &Digest,
) -> Result<Option<KnownEnd>, Fault>
    ensures made { (l : Layout) → AreOfKind (C.Contents.layout contents.now) l
        → HasCleanDisk (state S.Store conn.new) → IsSettled l (state S.Store conn.old)
        → IfOk result
        (λ end. DoneWhereSo l (is_some end) (state S.Store conn.old) (state S.Store conn.new)
        (λ w. session_matches w repo.now number digest.now)
        (λ w. finish_as_is w repo.now number digest.now)) }
    ensures known { (l : Layout) → AreOfKind (C.Contents.layout contents.now) l
        → number < 2 ^ 63 → Finds S.Store l conn.old conn.new result
        (λ t end. is_some end ≡ is_some (known_link t repo.now number digest.now)) }
    ensures ended { (l : Layout) → AreOfKind (C.Contents.layout contents.now) l
        → Tells S.Store l conn.old conn.new result (λ w end. IfSome end
        (λ e. (session_size_at w repo.now number ≡ Some e.size)
        × (e.came ≡ is_none (blob_at w repo.now digest.now)))) }
    ensures stays { (l : Layout) → AreOfKind (C.Contents.layout contents.now) l
        → Relates S.Store l conn.old conn.new result (λ t u. u.contents ≡ t.contents) }
    ensures places { (l : Layout) → AreOfKind (C.Contents.layout contents.now) l
        → Relates S.Store l conn.old conn.new result KeepsPlaces }
    ensures memory { (l : Layout) → AreOfKind (C.Contents.layout contents.now) l
        → StaysOnMemory S.Store l conn.old conn.new result }
    ensures back { (l : Layout) → AreOfKind (C.Contents.layout contents.now) l
        → GoesBack S.Store l conn.old conn.new result }
    ensures crash { (l : Layout) → AreOfKind (C.Contents.layout contents.now) l
        → CrashEnds S.Store l conn.old conn.new result
        (λ w. session_matches w repo.now number digest.now)
        (λ w. finish_as_is w repo.now number digest.now) }
    ensures survives { Lasts S.Store conn.old conn.new }
{
    if number > LARGEST {
        return Ok(None);
    }
    let repo = repo.as_str();
    let digest = digest.as_str();
    match find_known(alloc, conn, contents, repo, number, digest) {
        Ok(Some(link)) => match finish_whole(conn, repo, number, digest, link) {
            Ok(came) => Ok(Some(KnownEnd {
                size: link.size,
                came,
            })),
            Err(fault) => Err(fault),
        },
        Ok(None) => Ok(None),
        Err(fault) => Err(fault),
    }
}
