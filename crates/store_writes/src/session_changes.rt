//! Upload sessions: they are opened, get bytes, and end.
ghost use Rattle.std.specs.Prelude.{◌≡◌, ◌<◌, ◌^◌, ◌+◌, find, None, IfOk};
ghost use Rattle.sqlite.specs.State.{HasCleanDisk};
ghost use Rattle.sqlite.specs.Held.{state};
ghost use Rattle.registry_model.specs.Lookups.{open_session, last_number_at};
ghost use Rattle.registry_model.specs.Command.{drop_sessions};
ghost use Rattle.store_contents.specs.Layouts.{Layout};
ghost use Rattle.store_statements.specs.Keys.{of_first, of_session};
ghost use Rattle.store_statements.specs.StepsFrom.{StepsFrom};
ghost use Rattle.store_statements.specs.Between.{CrashLeaves, GoesBack, MakesWorld, Relates, StaysOnMemory};
ghost use Rattle.store_statements.specs.Clauses.{Changes, KeepsInside, Lasts, LastsUncommitted};
ghost use Rattle.store_statements.specs.Held.{IsSettled, SettlesOn, world_in};
ghost use Rattle.store_statements.specs.Steps.{sessions_without, SessionOpened};
ghost use Rattle.store_statements.specs.PlaceChanges.{KeepsPlaces};

use crate::change::Change;
use crate::changing::make;
use crate::session_change::SessionChange;
use oci_types::{Fault, RepoName};
use sqlite::{Alter, Connection, Transaction};
use store_statements::numbers::LARGEST;
use store_statements::pieces::{take_pieces, take_pieces_of};
use store_statements::repos::{find_repo, set_last};
use store_statements::uploads::{add_upload, take_upload, take_uploads};

/// Takes all sessions of the repository out, with their pieces.
pub(crate) fn take_sessions<S: Alter>(tx: &mut Transaction<'_, S>, repo: &str) -> Result<(), Fault>
    ensures taken { (l : Layout) → Changes S.Store l tx.old.conn.now tx.new.conn.now result
        (sessions_without (of_first repo.now)) }
    ensures kept { (l : Layout) → KeepsInside S.Store l tx.old.conn.now tx.new.conn.now }
    ensures same_reference { tx.new.conn.ghost_name ≡ tx.old.conn.ghost_name }
    ensures survives { LastsUncommitted S.Store tx.old.conn.now tx.new.conn.now }
{
    match take_pieces(tx, repo) {
        Ok(()) => take_uploads(tx, repo),
        Err(fault) => Err(fault),
    }
}

/// Ends all upload sessions of the repository; their bytes are given up.
pub fn drop_sessions<S: Alter>(conn: &mut Connection<S>, repo: &RepoName) -> Result<(), Fault>
    ensures made { (l : Layout)
        → MakesWorld S.Store l conn.old conn.new result (λ w. drop_sessions w repo.now) }
    ensures stays { (l : Layout)
        → Relates S.Store l conn.old conn.new result (λ t u. u.contents ≡ t.contents) }
    ensures places { (l : Layout) → Relates S.Store l conn.old conn.new result KeepsPlaces }
    ensures memory { (l : Layout) → StaysOnMemory S.Store l conn.old conn.new result }
    ensures back { (l : Layout) → GoesBack S.Store l conn.old conn.new result }
    ensures crash { (l : Layout)
        → CrashLeaves S.Store l conn.old conn.new result (λ w. drop_sessions w repo.now) }
    ensures survives { Lasts S.Store conn.old conn.new }
{
    let repo = repo.as_str();
    make(conn, Change::Session(SessionChange::TakeAll { repo }))
}

/// Takes a session out, with its pieces.
pub(crate) fn take_session<S: Alter>(
    tx: &mut Transaction<'_, S>,
    repo: &str,
    number: u64,
) -> Result<(), Fault>
    requires fits { number < 2 ^ 63 }
    ensures taken { (l : Layout) → Changes S.Store l tx.old.conn.now tx.new.conn.now result
        (sessions_without (of_session repo.now number)) }
    ensures kept { (l : Layout) → KeepsInside S.Store l tx.old.conn.now tx.new.conn.now }
    ensures same_reference { tx.new.conn.ghost_name ≡ tx.old.conn.ghost_name }
    ensures survives { LastsUncommitted S.Store tx.old.conn.now tx.new.conn.now }
{
    match take_pieces_of(tx, repo, number) {
        Ok(()) => take_upload(tx, repo, number),
        Err(fault) => Err(fault),
    }
}

/// Puts an empty session in under a number that none has, which becomes the repository's last.
pub(crate) fn add_session<S: Alter>(
    tx: &mut Transaction<'_, S>,
    repo: &str,
    number: u64,
) -> Result<(), Fault>
    requires fits { number < 2 ^ 63 }
    ensures opened { (l : Layout) → StepsFrom S.Store l tx.old.conn.now tx.new.conn.now result
        (λ t. find (of_session repo.now number) t.uploads ≡ None) (λ t u. SessionOpened t u repo.now number) }
    ensures kept { (l : Layout) → KeepsInside S.Store l tx.old.conn.now tx.new.conn.now }
    ensures same_reference { tx.new.conn.ghost_name ≡ tx.old.conn.ghost_name }
    ensures survives { LastsUncommitted S.Store tx.old.conn.now tx.new.conn.now }
{
    match set_last(tx, repo, number) {
        Ok(_) => add_upload(tx, repo, number),
        Err(fault) => Err(fault),
    }
}

/// Opens an empty session under the number behind the repository's last, and answers it.
pub fn open_session<S: Alter>(conn: &mut Connection<S>, repo: &RepoName) -> Result<u64, Fault>
    ensures made { (l : Layout) → HasCleanDisk (state S.Store conn.new) → IsSettled l (state S.Store conn.old)
        → IfOk result
        (λ n. (n ≡ last_number_at (world_in l (state S.Store conn.old)) repo.now + 1) × SettlesOn l
        (state S.Store conn.new) (open_session (world_in l (state S.Store conn.old)) repo.now)) }
    ensures stays { (l : Layout)
        → Relates S.Store l conn.old conn.new result (λ t u. u.contents ≡ t.contents) }
    ensures places { (l : Layout) → Relates S.Store l conn.old conn.new result KeepsPlaces }
    ensures memory { (l : Layout) → StaysOnMemory S.Store l conn.old conn.new result }
    ensures back { (l : Layout) → GoesBack S.Store l conn.old conn.new result }
    ensures crash { (l : Layout)
        → CrashLeaves S.Store l conn.old conn.new result (λ w. open_session w repo.now) }
    ensures survives { Lasts S.Store conn.old conn.new }
{
    let repo = repo.as_str();
    match find_repo(conn, repo) {
        Ok(Some(row)) if row.last < LARGEST => {
            let number = row.last + 1;
            match make(conn, Change::Session(SessionChange::Open { repo, number })) {
                Ok(()) => Ok(number),
                Err(fault) => Err(fault),
            }
        }
        Ok(_) => Err(Fault::Storage),
        Err(fault) => Err(fault),
    }
}
