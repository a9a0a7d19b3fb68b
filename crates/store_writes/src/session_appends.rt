//! Bytes come behind those of an open upload session.
ghost use Rattle.std.specs.Prelude.{◌≡◌, ◌<◌, ◌+◌, ◌^◌, true, find, is_some, nat_lt, None, Some, Ok, Err, IfOk, IfErr, IfSome};
ghost use Rattle.sha2.specs.Sha256.{sha256};
ghost use Rattle.registry_model.specs.Lookups.{append, session_at};
ghost use Rattle.store_contents.specs.Layouts.{Layout};
ghost use Rattle.store_places.specs.Source.{Fits, IfBytes, Suits, runs_in, size_in, text_in};
ghost use Rattle.store_statements.specs.Keys.{has_start};
ghost use Rattle.store_statements.specs.StepsFrom.{StepsFrom};
ghost use Rattle.store_statements.specs.Changes.{Grow};
ghost use Rattle.store_statements.specs.PlaceChanges.{AddsPlaces, PutsContent};
ghost use Rattle.store_statements.specs.Between.{CrashLeaves, GoesBack, MakesWorld, Relates, StaysOnMemory};
ghost use Rattle.store_statements.specs.Clauses.{KeepsInside, Lasts, LastsUncommitted, WorldHas};
ghost use Rattle.store_statements.specs.Steps.{Appended};

use crate::change::Change;
use crate::changing::make;
use crate::session_change::SessionChange;
use oci_types::{Fault, RepoName};
use sqlite::{Alter, Connection, Transaction};
use std::alloc::Global;
use store_places::Source;
use store_statements::contents::keep_with;
use store_statements::numbers::{LARGEST, has_room};
use store_statements::pieces::add_piece;
use store_statements::uploads::{find_upload, set_size};

/// Puts bytes behind those of a session that has `size` bytes, with their SHA-256 where it is known.
pub(crate) fn add_bytes<S: Alter>(
    alloc: Global,
    tx: &mut Transaction<'_, S>,
    repo: &str,
    number: u64,
    size: u64,
    source: Source<'_>,
    hash: Option<[u8; 32]>,
) -> Result<(), Fault>
    requires suits { Fits source }
    requires hashed { IfBytes (λ bytes. IfSome hash (λ h. h ≡ sha256 bytes)) source }
    requires number_fits { number < 2 ^ 63 }
    requires fits { size + size_in source < 2 ^ 63 }
    ensures appended { (l : Layout) → Suits l source.entry
        → StepsFrom S.Store l tx.old.conn.now tx.new.conn.now result
        (λ t. find (has_start repo.now number size) t.pieces ≡ None)
        (λ t u. Appended t u repo.now number size (text_in l source.entry) (runs_in source.entry)) }
    ensures kept { (l : Layout) → Suits l source.entry
        → KeepsInside S.Store l tx.old.conn.now tx.new.conn.now }
    ensures same_reference { tx.new.conn.ghost_name ≡ tx.old.conn.ghost_name }
    ensures survives { LastsUncommitted S.Store tx.old.conn.now tx.new.conn.now }
{
    match set_size(tx, repo, number, size + source.len() as u64) {
        Ok(_) => match keep_with(alloc, tx, hash, source) {
            Ok(content) => add_piece(tx, repo, number, size, source.len() as u64, content),
            Err(fault) => Err(fault),
        },
        Err(fault) => Err(fault),
    }
}

/// The size that was found of a session, where there is room for so many bytes more.
fn with_room(found: Result<Option<u64>, Fault>, more: u64) -> Result<u64, Fault>
    ensures same { IfOk result (λ size. found ≡ Ok (Some size)) }
    ensures room { IfOk result (λ size. size + more < 2 ^ 63) }
    ensures memory { IfErr result (λ fault. fault ≡ Fault.Memory → found ≡ Err fault) }
{
    match found {
        Ok(Some(size)) if has_room(size, more) => Ok(size),
        Ok(_) => Err(Fault::Storage),
        Err(fault) => Err(fault),
    }
}

/// Puts bytes behind those of an open session, with their SHA-256 where it is known; none that it has are
/// touched.
pub fn append<S: Alter>(
    alloc: Global,
    conn: &mut Connection<S>,
    repo: &RepoName,
    number: u64,
    source: Source<'_>,
    hash: Option<[u8; 32]>,
) -> Result<(), Fault>
    requires fits { Fits source }
    requires hashed { IfBytes (λ bytes. IfSome hash (λ h. h ≡ sha256 bytes)) source }
    ensures made { (l : Layout) → Suits l source.entry
        → WorldHas S.Store l conn.old (λ w. is_some (session_at w repo.now number) ≡ true)
        → MakesWorld S.Store l conn.old conn.new result
        (λ w. append w repo.now number (text_in l source.entry)) }
    ensures grows { (l : Layout) → Suits l source.entry
        → Relates S.Store l conn.old conn.new result (λ t u. Grow t.contents u.contents) }
    ensures places { (l : Layout) → Suits l source.entry
        → Relates S.Store l conn.old conn.new result (AddsPlaces source.entry) }
    ensures contents { (l : Layout) → Suits l source.entry
        → Relates S.Store l conn.old conn.new result
        (PutsContent (text_in l source.entry) (nat_lt 0 (size_in source.entry))) }
    ensures memory { (l : Layout) → Suits l source.entry → StaysOnMemory S.Store l conn.old conn.new result }
    ensures back { (l : Layout) → Suits l source.entry → GoesBack S.Store l conn.old conn.new result }
    ensures crash { (l : Layout) → Suits l source.entry
        → WorldHas S.Store l conn.old (λ w. is_some (session_at w repo.now number) ≡ true)
        → CrashLeaves S.Store l conn.old conn.new result
        (λ w. append w repo.now number (text_in l source.entry)) }
    ensures survives { Lasts S.Store conn.old conn.new }
{
    if source.len() == 0 {
        return Ok(());
    }
    if number > LARGEST {
        return Err(Fault::Storage);
    }
    let repo = repo.as_str();
    match with_room(find_upload(conn, repo, number), source.len() as u64) {
        Ok(size) => make(
            conn,
            Change::Session(SessionChange::Append {
                alloc,
                repo,
                number,
                size,
                source,
                hash,
            }),
        ),
        Err(fault) => Err(fault),
    }
}
