//! The rows of grants: what level a token has on a repository.
ghost use Rattle.std.specs.Prelude.{◌≡◌, ◌∷◌, [], pos, map, nat_lt, option_map, find, filter, length, None};
ghost use Rattle.sqlite.specs.Order.{column};
ghost use Rattle.sqlite_keyed.specs.Lists.{sort_by};
ghost use Rattle.store_schema.specs.Rows.{natural_at};
ghost use Rattle.store_contents.specs.Layouts.{Layout};
ghost use Rattle.store_statements.specs.Keys.{has_key, of_first, of_second};
ghost use Rattle.store_statements.specs.Tables.{level_number, level_of};
ghost use Rattle.store_statements.specs.Changes.{with_level, grant_columns};
ghost use Rattle.store_statements.specs.Between.{ChangesNothing, FailsAsWas, Finds, Stays};
ghost use Rattle.store_statements.specs.Clauses.{Adds, Changes, FindsInside, KeepsInside, Lasts, LastsUncommitted};
ghost use Rattle.store_statements.specs.Shown.{by_token};
ghost use Rattle.store_statements.specs.Steps.{grants_without, grants_changed, GrantComes};

use crate::reading::{FromRow, any_row, first};
use crate::telling::checked;
use oci_types::Fault;
use registry_model::Level;
use sqlite::{Alter, Connection, Error, Row, Transaction, params};
use std::alloc::Global;
use store_contents::{done, told};

/// A level as a column has it.
fn number_of(level: Level) -> i64
    ensures { result ≡ pos (level_number level) }
{
    match level {
        Level::Pull => 1,
        Level::Push => 2,
        Level::Delete => 3,
    }
}

/// Takes the grant out, where it is there.
pub fn take_grant<S: Alter>(
    tx: &mut Transaction<'_, S>,
    token: &str,
    repo: &str,
) -> Result<(), Fault>
    ensures taken { (l : Layout) → Changes S.Store l tx.old.conn.now tx.new.conn.now result
        (grants_without (has_key token.now repo.now)) }
    ensures kept { (l : Layout) → KeepsInside S.Store l tx.old.conn.now tx.new.conn.now }
    ensures same_reference { tx.new.conn.ghost_name ≡ tx.old.conn.ghost_name }
    ensures survives { LastsUncommitted S.Store tx.old.conn.now tx.new.conn.now }
{
    done(tx.execute(
        "DELETE FROM registry_grants WHERE token = ?1 AND repo = ?2",
        params![token, repo],
    ))
}

/// Takes each grant on the repository out.
pub fn take_grants<S: Alter>(tx: &mut Transaction<'_, S>, repo: &str) -> Result<(), Fault>
    ensures taken { (l : Layout) → Changes S.Store l tx.old.conn.now tx.new.conn.now result
        (grants_without (of_second repo.now)) }
    ensures kept { (l : Layout) → KeepsInside S.Store l tx.old.conn.now tx.new.conn.now }
    ensures same_reference { tx.new.conn.ghost_name ≡ tx.old.conn.ghost_name }
    ensures survives { LastsUncommitted S.Store tx.old.conn.now tx.new.conn.now }
{
    done(tx.execute("DELETE FROM registry_grants WHERE repo = ?1", params![repo]))
}

/// Takes each grant to the token out.
pub fn take_token_grants<S: Alter>(tx: &mut Transaction<'_, S>, token: &str) -> Result<(), Fault>
    ensures taken { (l : Layout) → Changes S.Store l tx.old.conn.now tx.new.conn.now result
        (grants_without (of_first token.now)) }
    ensures kept { (l : Layout) → KeepsInside S.Store l tx.old.conn.now tx.new.conn.now }
    ensures same_reference { tx.new.conn.ghost_name ≡ tx.old.conn.ghost_name }
    ensures survives { LastsUncommitted S.Store tx.old.conn.now tx.new.conn.now }
{
    done(tx.execute(
        "DELETE FROM registry_grants WHERE token = ?1",
        params![token],
    ))
}

/// Sets the level, where there is a grant, and tells how many rows that were: one, or none.
pub fn set_level<S: Alter>(
    tx: &mut Transaction<'_, S>,
    token: &str,
    repo: &str,
    level: Level,
) -> Result<usize, Fault>
    ensures set { (l : Layout) → Changes S.Store l tx.old.conn.now tx.new.conn.now result
        (grants_changed (has_key token.now repo.now) (with_level level)) }
    ensures counted { (l : Layout) → FindsInside S.Store l tx.old.conn.now tx.new.conn.now result
        (λ t n. n ≡ length (filter (has_key token.now repo.now) t.grants)) }
    ensures kept { (l : Layout) → KeepsInside S.Store l tx.old.conn.now tx.new.conn.now }
    ensures same_reference { tx.new.conn.ghost_name ≡ tx.old.conn.ghost_name }
    ensures survives { LastsUncommitted S.Store tx.old.conn.now tx.new.conn.now }
{
    told(tx.execute(
        "UPDATE registry_grants SET level = ?3 WHERE token = ?1 AND repo = ?2",
        params![token, repo, number_of(level)],
    ))
}

/// Puts a grant in that is not there.
pub fn add_grant<S: Alter>(
    tx: &mut Transaction<'_, S>,
    token: &str,
    repo: &str,
    level: Level,
) -> Result<(), Fault>
    ensures added { (l : Layout) → Adds S.Store l tx.old.conn.now tx.new.conn.now result
        (λ t. find (has_key token.now repo.now) t.grants ≡ None) GrantComes
        (grant_columns token.now repo.now level) }
    ensures kept { (l : Layout) → KeepsInside S.Store l tx.old.conn.now tx.new.conn.now }
    ensures same_reference { tx.new.conn.ghost_name ≡ tx.old.conn.ghost_name }
    ensures survives { LastsUncommitted S.Store tx.old.conn.now tx.new.conn.now }
{
    done(tx.execute(
        "INSERT INTO registry_grants (token, repo, level) VALUES (?1, ?2, ?3)",
        params![token, repo, number_of(level)],
    ))
}

/// The level that a column's number stands for.
pub fn level_in(number: u64) -> Level
    ensures { result ≡ level_of number }
{
    match number {
        1 => Level::Pull,
        2 => Level::Push,
        _ => Level::Delete,
    }
}

impl FromRow for Level {
    ghost shown = { λ row. level_of (natural_at row 0) };

    fn read(_alloc: Global, row: &Row) -> Result<Level, Error> {
        let number: u64 = row.get(0)?;
        Ok(level_in(number))
    }
}

/// The level of the token on the repository, if it has one.
pub fn find_level<S: Alter>(
    conn: &mut Connection<S>,
    token: &str,
    repo: &str,
) -> Result<Option<Level>, Fault>
    ensures found { (l : Layout) → Finds S.Store l conn.old conn.new result
        (λ t o. o ≡ option_map (λ r. level_of (natural_at r 3))
        (find (has_key token.now repo.now) t.grants)) }
    ensures settled { (l : Layout) → Stays S.Store l conn.old conn.new result }
    ensures survives { Lasts S.Store conn.old conn.new }
{
    let shown = conn.query_all(
        "SELECT level FROM registry_grants WHERE token = ?1 AND repo = ?2",
        params![token, repo],
    );
    let found = first(shown);
    checked(conn, found)
}

/// Whether the token has a grant on some repository: one row is asked for, however many it has.
pub fn is_known<S: Alter>(conn: &mut Connection<S>, token: &str) -> Result<bool, Fault>
    ensures found { (l : Layout) → Finds S.Store l conn.old conn.new result
        (λ t known. known ≡ nat_lt 0 (length (filter (of_first token.now) t.grants))) }
    ensures settled { (l : Layout) → Stays S.Store l conn.old conn.new result }
    ensures survives { Lasts S.Store conn.old conn.new }
{
    let shown = conn.query_all(
        "SELECT level FROM registry_grants WHERE token = ?1 LIMIT 1",
        params![token],
    );
    let found = any_row(shown);
    checked(conn, found)
}

/// The token of each grant on the repository, in byte order, with the number of its level.
pub fn token_rows<S: Alter>(conn: &mut Connection<S>, repo: &str) -> Result<Vec<Row>, Error>
    ensures shown { (l : Layout) → Finds S.Store l conn.old conn.new result
        (λ t rows. rows.items ≡ map (λ r. column r 1 ∷ column r 3 ∷ [])
        (sort_by by_token (filter (of_second repo.now) t.grants))) }
    ensures same { (l : Layout) → ChangesNothing S.Store l conn.old conn.new result }
    ensures err { (l : Layout) → FailsAsWas S.Store l conn.old conn.new result }
    ensures survives { Lasts S.Store conn.old conn.new }
{
    conn.query_all(
        "SELECT token, level FROM registry_grants WHERE repo = ?1 ORDER BY token",
        params![repo],
    )
}
