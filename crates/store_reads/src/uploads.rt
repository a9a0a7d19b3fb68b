//! The upload sessions of repositories.
ghost use Rattle.std.specs.Prelude.{◌≡◌, OnOk, None};
ghost use Rattle.sqlite.specs.State.{HasCleanDisk};
ghost use Rattle.sqlite.specs.Held.{state};
ghost use Rattle.registry_model.specs.Lookups.{session_at, session_size_at, sessions_open_at};
ghost use Rattle.store_contents.specs.Layouts.{Layout};
ghost use Rattle.store_statements.specs.Between.{Keeps, Stays, Tells};
ghost use Rattle.store_statements.specs.Clauses.{Lasts};
ghost use Rattle.store_statements.specs.Held.{IsSettled, world_in};

use crate::repos::last_number;
use oci_types::{Fault, RepoName};
use sqlite::{Alter, Connection};
use store_statements::numbers::LARGEST;
use store_statements::uploads::{count_uploads, find_upload};

/// How many upload sessions are open; 0 where the repository is not there.
pub fn sessions_open<S: Alter>(conn: &mut Connection<S>, repo: &RepoName) -> Result<u64, Fault>
    ensures found { (l : Layout)
        → Tells S.Store l conn.old conn.new result (λ w v. v ≡ sessions_open_at w repo.now) }
    ensures settled { (l : Layout) → Stays S.Store l conn.old conn.new result }
    ensures survives { Lasts S.Store conn.old conn.new }
{
    match count_uploads(conn, repo.as_str()) {
        Ok(count) => Ok(count as u64),
        Err(fault) => Err(fault),
    }
}

/// Sees that no session has a number that no column holds: each number was given out, and the last of
/// them is a column's. `Fault::Storage` where the last number is not below it, which cannot be.
pub(crate) fn expect_no_session<S: Alter>(
    conn: &mut Connection<S>,
    repo: &RepoName,
    number: u64,
) -> Result<(), Fault>
    ensures found { (l : Layout) → HasCleanDisk (state S.Store conn.new)
        → IsSettled l (state S.Store conn.old)
        → OnOk result (session_at (world_in l (state S.Store conn.old)) repo.now number ≡ None) }
    ensures settled { (l : Layout) → Stays S.Store l conn.old conn.new result }
    ensures kept { (l : Layout) → Keeps S.Store l conn.old conn.new }
    ensures survives { Lasts S.Store conn.old conn.new }
{
    match last_number(conn, repo) {
        Ok(last) if last < number => Ok(()),
        Ok(_) => Err(Fault::Storage),
        Err(fault) => Err(fault),
    }
}

/// The length in bytes of an open upload session. Reads no byte of it.
pub fn session_size<S: Alter>(
    conn: &mut Connection<S>,
    repo: &RepoName,
    number: u64,
) -> Result<Option<u64>, Fault>
    ensures found { (l : Layout)
        → Tells S.Store l conn.old conn.new result (λ w v. v ≡ session_size_at w repo.now number) }
    ensures settled { (l : Layout) → Stays S.Store l conn.old conn.new result }
    ensures kept { (l : Layout) → Keeps S.Store l conn.old conn.new }
    ensures survives { Lasts S.Store conn.old conn.new }
{
    if number <= LARGEST {
        return find_upload(conn, repo.as_str(), number);
    }
    match expect_no_session(conn, repo, number) {
        Ok(()) => Ok(None),
        Err(fault) => Err(fault),
    }
}
