//! The rows of repositories.
ghost use Rattle.std.specs.Prelude.{◌≡◌, ◌<◌, ◌^◌, map, option_map, OnOk, find, filter, length, None};
ghost use Rattle.sqlite.specs.State.{HasCleanDisk};
ghost use Rattle.sqlite_keyed.specs.Lists.{sort_by};
ghost use Rattle.store_schema.specs.Rows.{bytes_at};
ghost use Rattle.sqlite.specs.Held.{state};
ghost use Rattle.store_contents.specs.Layouts.{Layout};
ghost use Rattle.store_statements.specs.Keys.{of_first};
ghost use Rattle.store_statements.specs.Changes.{with_quota, with_last, repo_columns};
ghost use Rattle.store_statements.specs.Between.{Finds, Keeps, Stays};
ghost use Rattle.store_statements.specs.Clauses.{Adds, Changes, FindsInside, KeepsInside, Lasts, LastsUncommitted};
ghost use Rattle.store_statements.specs.Held.{IsReady, Becomes, held};
ghost use Rattle.store_statements.specs.Shown.{repo_row, by_name};
ghost use Rattle.store_statements.specs.Steps.{repos_without, repos_changed, RepoComes};
ghost use Rattle.store_statements.specs.Drops.{HasNoChildren};
ghost use Rattle.store_statements.specs.FirstRows.{repo_shown};

use crate::reading::{FromRow, all, count_rows, first};
use crate::telling::checked;
use oci_types::{Fault, RepoName};
use sqlite::{Alter, Connection, Error, Row, Transaction, params};
use std::alloc::Global;
use store_contents::{done, told};

/// What the row of a repository has beside its name: the quota in bytes, and the last number that an upload
/// session got, 0 where none was opened.
#[derive(Clone, Copy)]
pub struct RepoRow {
    pub quota: u64,
    pub last: u64,
}

/// Puts a repository in that is not there, with no upload session.
pub fn add_repo<S: Alter>(tx: &mut Transaction<'_, S>, name: &str, quota: u64) -> Result<(), Fault>
    requires fits { quota < 2 ^ 63 }
    ensures added { (l : Layout) → Adds S.Store l tx.old.conn.now tx.new.conn.now result
        (λ t. find (of_first name.now) t.repos ≡ None) RepoComes (repo_columns name.now quota) }
    ensures kept { (l : Layout) → KeepsInside S.Store l tx.old.conn.now tx.new.conn.now }
    ensures same_reference { tx.new.conn.ghost_name ≡ tx.old.conn.ghost_name }
    ensures survives { LastsUncommitted S.Store tx.old.conn.now tx.new.conn.now }
{
    done(tx.execute(
        "INSERT INTO registry_repos (name, quota, last_session) VALUES (?1, ?2, 0)",
        params![name, quota as i64],
    ))
}

/// Sets the quota of the repository, where it is there, and tells how many rows that were: one, or none.
pub fn set_quota<S: Alter>(
    tx: &mut Transaction<'_, S>,
    name: &str,
    quota: u64,
) -> Result<usize, Fault>
    requires fits { quota < 2 ^ 63 }
    ensures set { (l : Layout) → Changes S.Store l tx.old.conn.now tx.new.conn.now result
        (repos_changed (of_first name.now) (with_quota quota)) }
    ensures counted { (l : Layout) → FindsInside S.Store l tx.old.conn.now tx.new.conn.now result
        (λ t n. n ≡ length (filter (of_first name.now) t.repos)) }
    ensures kept { (l : Layout) → KeepsInside S.Store l tx.old.conn.now tx.new.conn.now }
    ensures same_reference { tx.new.conn.ghost_name ≡ tx.old.conn.ghost_name }
    ensures survives { LastsUncommitted S.Store tx.old.conn.now tx.new.conn.now }
{
    told(tx.execute(
        "UPDATE registry_repos SET quota = ?2 WHERE name = ?1",
        params![name, quota as i64],
    ))
}

/// Sets the last number that an upload session of the repository got, where the repository is there, and
/// tells how many rows that were: one, or none.
pub fn set_last<S: Alter>(
    tx: &mut Transaction<'_, S>,
    name: &str,
    number: u64,
) -> Result<usize, Fault>
    requires fits { number < 2 ^ 63 }
    ensures set { (l : Layout) → Changes S.Store l tx.old.conn.now tx.new.conn.now result
        (repos_changed (of_first name.now) (with_last number)) }
    ensures counted { (l : Layout) → FindsInside S.Store l tx.old.conn.now tx.new.conn.now result
        (λ t n. n ≡ length (filter (of_first name.now) t.repos)) }
    ensures kept { (l : Layout) → KeepsInside S.Store l tx.old.conn.now tx.new.conn.now }
    ensures same_reference { tx.new.conn.ghost_name ≡ tx.old.conn.ghost_name }
    ensures survives { LastsUncommitted S.Store tx.old.conn.now tx.new.conn.now }
{
    told(tx.execute(
        "UPDATE registry_repos SET last_session = ?2 WHERE name = ?1",
        params![name, number as i64],
    ))
}

/// Takes a repository out that no row of another table names, where it is there.
pub fn take_repo<S: Alter>(tx: &mut Transaction<'_, S>, name: &str) -> Result<(), Fault>
    ensures taken { (l : Layout) → HasCleanDisk (state S.Store tx.new.conn.now)
        → IsReady l (state S.Store tx.old.conn.now)
        → HasNoChildren (held l (state S.Store tx.old.conn.now)) name.now
        → OnOk result
        (Becomes l (state S.Store tx.new.conn.now)
        (repos_without (of_first name.now) (held l (state S.Store tx.old.conn.now)))) }
    ensures kept { (l : Layout) → KeepsInside S.Store l tx.old.conn.now tx.new.conn.now }
    ensures same_reference { tx.new.conn.ghost_name ≡ tx.old.conn.ghost_name }
    ensures survives { LastsUncommitted S.Store tx.old.conn.now tx.new.conn.now }
{
    done(tx.execute("DELETE FROM registry_repos WHERE name = ?1", params![name]))
}

impl FromRow for RepoRow {
    ghost shown = { repo_shown };

    fn read(_alloc: Global, row: &Row) -> Result<RepoRow, Error> {
        let quota: u64 = row.get(0)?;
        let last: u64 = row.get(1)?;
        Ok(RepoRow { quota, last })
    }
}

/// What the row of the repository has, if there is one.
pub fn find_repo<S: Alter>(conn: &mut Connection<S>, name: &str) -> Result<Option<RepoRow>, Fault>
    ensures found { (l : Layout) → Finds S.Store l conn.old conn.new result
        (λ t o. o ≡ option_map repo_row (find (of_first name.now) t.repos)) }
    ensures settled { (l : Layout) → Stays S.Store l conn.old conn.new result }
    ensures kept { (l : Layout) → Keeps S.Store l conn.old conn.new }
    ensures survives { Lasts S.Store conn.old conn.new }
{
    let shown = conn.query_all(
        "SELECT quota, last_session FROM registry_repos WHERE name = ?1",
        params![name],
    );
    let found = first(shown);
    checked(conn, found)
}

/// The name of each repository, in the order of their bytes.
pub fn list_repos<S: Alter>(alloc: Global, conn: &mut Connection<S>) -> Result<Vec<RepoName>, Fault>
    ensures found { (l : Layout) → Finds S.Store l conn.old conn.new result
        (λ t names. names.items ≡ map (λ r. bytes_at r 1) (sort_by by_name t.repos)) }
    ensures settled { (l : Layout) → Stays S.Store l conn.old conn.new result }
    ensures survives { Lasts S.Store conn.old conn.new }
{
    let shown = conn.query_all("SELECT name FROM registry_repos ORDER BY name", &[]);
    let found = all(alloc, shown);
    checked(conn, found)
}

/// How many repositories there are.
pub fn count_repos<S: Alter>(conn: &mut Connection<S>) -> Result<usize, Fault>
    ensures found { (l : Layout) → Finds S.Store l conn.old conn.new result (λ t n. n ≡ length t.repos) }
    ensures settled { (l : Layout) → Stays S.Store l conn.old conn.new result }
    ensures survives { Lasts S.Store conn.old conn.new }
{
    let shown = conn.query_all("SELECT name FROM registry_repos ORDER BY name", &[]);
    let found = count_rows(shown);
    checked(conn, found)
}
