//! An upload session ends, and its bytes become a blob.
ghost use Rattle.std.specs.Prelude.{◌≡◌, ◌≤◌, ◌<◌, ◌^◌, true, length, find, is_none, is_some, None};
ghost use Rattle.oci_types.specs.Digest.{matches};
ghost use Rattle.registry_model.specs.Lookups.{blob_at, finish, session_at};
ghost use Rattle.store_contents.specs.Layouts.{Layout};
ghost use Rattle.store_places.specs.Source.{Fits, IfBytes, Suits, runs_in, size_in, text_in};
ghost use Rattle.store_statements.specs.Keys.{has_key};
ghost use Rattle.store_statements.specs.StepsFrom.{StepsFrom};
ghost use Rattle.store_statements.specs.Changes.{Grow};
ghost use Rattle.store_statements.specs.PlaceChanges.{PutsContent, PutsPlaces};
ghost use Rattle.store_statements.specs.Between.{CrashLeaves, GoesBack, MakesWorld, Relates, RelatesBy, StaysOnMemory, Tells};
ghost use Rattle.store_statements.specs.Clauses.{KeepsInside, Lasts, LastsUncommitted, WorldHas};
ghost use Rattle.store_statements.specs.Steps.{Finished};

use crate::change::Change;
use crate::changing::{make, tell_came};
use crate::session_change::SessionChange;
use crate::session_changes::take_session;
use oci_types::{Digest, Fault, RepoName};
use sqlite::{Alter, Connection, Transaction};
use std::alloc::Global;
use store_places::Source;
use store_statements::blob_storing::store_blob;
use store_statements::blobs::find_blob_link;
use store_statements::numbers::LARGEST;

/// Takes a session out, and puts a blob in that the repository has not.
pub(crate) fn end_session<S: Alter>(
    alloc: Global,
    tx: &mut Transaction<'_, S>,
    repo: &str,
    number: u64,
    digest: &str,
    source: Source<'_>,
) -> Result<(), Fault>
    requires number_fits { number < 2 ^ 63 }
    requires right { Fits source }
    requires fits { size_in source < 2 ^ 63 }
    requires matching { IfBytes (λ bytes. matches digest.now bytes ≡ true) source }
    ensures finished { (l : Layout) → Suits l source.entry
        → StepsFrom S.Store l tx.old.conn.now tx.new.conn.now result
        (λ t. find (has_key repo.now digest.now) t.blobs ≡ None)
        (λ t u. Finished t u repo.now number digest.now (text_in l source.entry) (runs_in source.entry)) }
    ensures kept { (l : Layout) → Suits l source.entry
        → KeepsInside S.Store l tx.old.conn.now tx.new.conn.now }
    ensures same_reference { tx.new.conn.ghost_name ≡ tx.old.conn.ghost_name }
    ensures survives { LastsUncommitted S.Store tx.old.conn.now tx.new.conn.now }
{
    match take_session(tx, repo, number) {
        Ok(()) => store_blob(alloc, tx, repo, digest, source),
        Err(fault) => Err(fault),
    }
}

/// Ends an open session, puts its whole bytes in as a blob, and answers whether that came: a digest that is
/// there keeps its bytes.
pub fn finish<S: Alter>(
    alloc: Global,
    conn: &mut Connection<S>,
    repo: &RepoName,
    number: u64,
    digest: &Digest,
    source: Source<'_>,
) -> Result<bool, Fault>
    requires right { Fits source }
    requires fits { size_in source < 2 ^ 63 }
    requires matching { IfBytes (λ bytes. matches digest.now bytes ≡ true) source }
    ensures made { (l : Layout) → Suits l source.entry
        → WorldHas S.Store l conn.old (λ w. is_some (session_at w repo.now number) ≡ true)
        → MakesWorld S.Store l conn.old conn.new result
        (λ w. finish w repo.now number digest.now (text_in l source.entry)) }
    ensures came { (l : Layout) → Tells S.Store l conn.old conn.new result
        (λ w came. came ≡ is_none (blob_at w repo.now digest.now)) }
    ensures grows { (l : Layout) → Suits l source.entry
        → Relates S.Store l conn.old conn.new result (λ t u. Grow t.contents u.contents) }
    ensures places { (l : Layout) → Suits l source.entry
        → RelatesBy S.Store l conn.old conn.new result (PutsPlaces source.entry) }
    ensures contents { (l : Layout) → Suits l source.entry
        → RelatesBy S.Store l conn.old conn.new result (PutsContent (text_in l source.entry)) }
    ensures memory { (l : Layout) → Suits l source.entry → StaysOnMemory S.Store l conn.old conn.new result }
    ensures back { (l : Layout) → Suits l source.entry → GoesBack S.Store l conn.old conn.new result }
    ensures crash { (l : Layout) → Suits l source.entry
        → WorldHas S.Store l conn.old (λ w. is_some (session_at w repo.now number) ≡ true)
        → CrashLeaves S.Store l conn.old conn.new result
        (λ w. finish w repo.now number digest.now (text_in l source.entry)) }
    ensures survives { Lasts S.Store conn.old conn.new }
{
    if number > LARGEST {
        return Err(Fault::Storage);
    }
    let repo = repo.as_str();
    let digest = digest.as_str();
    match find_blob_link(conn, repo, digest) {
        Ok(Some(_)) => {
            let taken = SessionChange::Take { repo, number };
            tell_came(make(conn, Change::Session(taken)), false)
        }
        Ok(None) => {
            let ended = SessionChange::Finish {
                alloc,
                repo,
                number,
                digest,
                source,
            };
            tell_came(make(conn, Change::Session(ended)), true)
        }
        Err(fault) => Err(fault),
    }
}
