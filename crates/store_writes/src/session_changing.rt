//! What a change of upload sessions is inside a transaction.
ghost use Rattle.std.specs.Prelude.{◌≡◌};
ghost use Rattle.store_contents.specs.Layouts.{Layout};
ghost use Rattle.store_statements.specs.Clauses.{KeepsInside, LastsUncommitted};
ghost use Rattle.store_statements.specs.StepsFrom.{StepsFrom};
ghost use Rattle.store_writes.specs.SessionChanging.{SessionAsks, SessionFits, SessionMakes, SessionSuits};

use crate::known_finish::end_whole;
use crate::session_appends::add_bytes;
use crate::session_change::SessionChange;
use crate::session_changes::{add_session, take_session, take_sessions};
use crate::session_finish::end_session;
use oci_types::Fault;
use sqlite::{Alter, Transaction};

/// Makes a change of upload sessions.
pub(crate) fn change_session<S: Alter>(
    tx: &mut Transaction<'_, S>,
    change: SessionChange<'_>,
) -> Result<(), Fault>
    requires fits { SessionFits change }
    ensures made { (l : Layout) → SessionSuits l change.entry
        → StepsFrom S.Store l tx.old.conn.now tx.new.conn.now result (SessionAsks change.entry)
        (SessionMakes l change.entry) }
    ensures kept { (l : Layout) → SessionSuits l change.entry
        → KeepsInside S.Store l tx.old.conn.now tx.new.conn.now }
    ensures same_reference { tx.new.conn.ghost_name ≡ tx.old.conn.ghost_name }
    ensures survives { LastsUncommitted S.Store tx.old.conn.now tx.new.conn.now }
{
    match change {
        SessionChange::Open { repo, number } => add_session(tx, repo, number),
        SessionChange::Append {
            alloc,
            repo,
            number,
            size,
            source,
            hash,
        } => add_bytes(alloc, tx, repo, number, size, source, hash),
        SessionChange::Finish {
            alloc,
            repo,
            number,
            digest,
            source,
        } => end_session(alloc, tx, repo, number, digest, source),
        SessionChange::Link {
            repo,
            number,
            digest,
            link,
        } => end_whole(tx, repo, number, digest, link),
        SessionChange::Take { repo, number } => take_session(tx, repo, number),
        SessionChange::TakeAll { repo } => take_sessions(tx, repo),
    }
}
