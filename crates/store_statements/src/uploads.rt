//! The rows of upload sessions.
ghost use Rattle.std.specs.Prelude.{◌≡◌, ◌<◌, ◌^◌, map, filter, find, length, None, option_map};
ghost use Rattle.std.specs.List.Sorted.{IsPermutation};
ghost use Rattle.store_schema.specs.Rows.{natural_at};
ghost use Rattle.store_contents.specs.Layouts.{Layout};
ghost use Rattle.store_statements.specs.Keys.{of_first, of_session};
ghost use Rattle.store_statements.specs.Changes.{with_size, upload_columns};
ghost use Rattle.store_statements.specs.Between.{Finds, Keeps, Stays};
ghost use Rattle.store_statements.specs.Clauses.{Adds, Changes, FindsInside, KeepsInside, Lasts, LastsUncommitted};
ghost use Rattle.store_statements.specs.Steps.{uploads_without, uploads_changed, UploadComes};

use crate::reading::{all, count_rows, first};
use crate::telling::checked;
use oci_types::Fault;
use sqlite::{Alter, Connection, Transaction, params};
use std::alloc::Global;
use store_contents::{done, told};

/// Takes the session out, where it is there.
pub fn take_upload<S: Alter>(
    tx: &mut Transaction<'_, S>,
    repo: &str,
    number: u64,
) -> Result<(), Fault>
    requires fits { number < 2 ^ 63 }
    ensures taken { (l : Layout) → Changes S.Store l tx.old.conn.now tx.new.conn.now result
        (uploads_without (of_session repo.now number)) }
    ensures kept { (l : Layout) → KeepsInside S.Store l tx.old.conn.now tx.new.conn.now }
    ensures same_reference { tx.new.conn.ghost_name ≡ tx.old.conn.ghost_name }
    ensures survives { LastsUncommitted S.Store tx.old.conn.now tx.new.conn.now }
{
    done(tx.execute(
        "DELETE FROM registry_uploads WHERE repo = ?1 AND number = ?2",
        params![repo, number as i64],
    ))
}

/// Takes all sessions of the repository out.
pub fn take_uploads<S: Alter>(tx: &mut Transaction<'_, S>, repo: &str) -> Result<(), Fault>
    ensures taken { (l : Layout) → Changes S.Store l tx.old.conn.now tx.new.conn.now result
        (uploads_without (of_first repo.now)) }
    ensures kept { (l : Layout) → KeepsInside S.Store l tx.old.conn.now tx.new.conn.now }
    ensures same_reference { tx.new.conn.ghost_name ≡ tx.old.conn.ghost_name }
    ensures survives { LastsUncommitted S.Store tx.old.conn.now tx.new.conn.now }
{
    done(tx.execute(
        "DELETE FROM registry_uploads WHERE repo = ?1",
        params![repo],
    ))
}

/// Sets the session's size in bytes, where it is there, and tells how many rows that were: one, or none.
pub fn set_size<S: Alter>(
    tx: &mut Transaction<'_, S>,
    repo: &str,
    number: u64,
    size: u64,
) -> Result<usize, Fault>
    requires number_fits { number < 2 ^ 63 }
    requires size_fits { size < 2 ^ 63 }
    ensures set { (l : Layout) → Changes S.Store l tx.old.conn.now tx.new.conn.now result
        (uploads_changed (of_session repo.now number) (with_size size)) }
    ensures counted { (l : Layout) → FindsInside S.Store l tx.old.conn.now tx.new.conn.now result
        (λ t n. n ≡ length (filter (of_session repo.now number) t.uploads)) }
    ensures kept { (l : Layout) → KeepsInside S.Store l tx.old.conn.now tx.new.conn.now }
    ensures same_reference { tx.new.conn.ghost_name ≡ tx.old.conn.ghost_name }
    ensures survives { LastsUncommitted S.Store tx.old.conn.now tx.new.conn.now }
{
    told(tx.execute(
        "UPDATE registry_uploads SET size = ?3 WHERE repo = ?1 AND number = ?2",
        params![repo, number as i64, size as i64],
    ))
}

/// Opens a session that is not there, with nothing in it.
pub fn add_upload<S: Alter>(
    tx: &mut Transaction<'_, S>,
    repo: &str,
    number: u64,
) -> Result<(), Fault>
    requires fits { number < 2 ^ 63 }
    ensures added { (l : Layout) → Adds S.Store l tx.old.conn.now tx.new.conn.now result
        (λ t. find (of_session repo.now number) t.uploads ≡ None) UploadComes
        (upload_columns repo.now number) }
    ensures kept { (l : Layout) → KeepsInside S.Store l tx.old.conn.now tx.new.conn.now }
    ensures same_reference { tx.new.conn.ghost_name ≡ tx.old.conn.ghost_name }
    ensures survives { LastsUncommitted S.Store tx.old.conn.now tx.new.conn.now }
{
    done(tx.execute(
        "INSERT INTO registry_uploads (repo, number, size) VALUES (?1, ?2, 0)",
        params![repo, number as i64],
    ))
}

/// How many bytes the session has, if it is open.
pub fn find_upload<S: Alter>(
    conn: &mut Connection<S>,
    repo: &str,
    number: u64,
) -> Result<Option<u64>, Fault>
    requires fits { number < 2 ^ 63 }
    ensures found { (l : Layout) → Finds S.Store l conn.old conn.new result
        (λ t o. o ≡ option_map (λ r. natural_at r 3) (find (of_session repo.now number) t.uploads)) }
    ensures settled { (l : Layout) → Stays S.Store l conn.old conn.new result }
    ensures kept { (l : Layout) → Keeps S.Store l conn.old conn.new }
    ensures survives { Lasts S.Store conn.old conn.new }
{
    let shown = conn.query_all(
        "SELECT size FROM registry_uploads WHERE repo = ?1 AND number = ?2",
        params![repo, number as i64],
    );
    let found = first(shown);
    checked(conn, found)
}

/// How many sessions of the repository are open.
pub fn count_uploads<S: Alter>(conn: &mut Connection<S>, repo: &str) -> Result<usize, Fault>
    ensures found { (l : Layout) → Finds S.Store l conn.old conn.new result
        (λ t n. n ≡ length (filter (of_first repo.now) t.uploads)) }
    ensures settled { (l : Layout) → Stays S.Store l conn.old conn.new result }
    ensures survives { Lasts S.Store conn.old conn.new }
{
    let shown = conn.query_all(
        "SELECT size FROM registry_uploads WHERE repo = ?1",
        params![repo],
    );
    let found = count_rows(shown);
    checked(conn, found)
}

/// The size in bytes of each open session of the repository, in any order.
pub fn upload_sizes<S: Alter>(
    alloc: Global,
    conn: &mut Connection<S>,
    repo: &str,
) -> Result<Vec<u64>, Fault>
    ensures found { (l : Layout) → Finds S.Store l conn.old conn.new result
        (λ t sizes. IsPermutation (map (λ r. natural_at r 3) (filter (of_first repo.now) t.uploads))
        sizes.items) }
    ensures settled { (l : Layout) → Stays S.Store l conn.old conn.new result }
    ensures kept { (l : Layout) → Keeps S.Store l conn.old conn.new }
    ensures survives { Lasts S.Store conn.old conn.new }
{
    let shown = conn.query_all(
        "SELECT size FROM registry_uploads WHERE repo = ?1",
        params![repo],
    );
    let found = all(alloc, shown);
    checked(conn, found)
}
