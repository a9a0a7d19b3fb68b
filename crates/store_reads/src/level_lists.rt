//! Who has what level on a repository, and on all.
ghost use Rattle.std.specs.Prelude.{◌≡◌, map, IfOk};
ghost use Rattle.registry_model.specs.Lookups.{AreLevelsOn, AreLevelsOver, repo_names_of};
ghost use Rattle.store_contents.specs.Layouts.{Layout};
ghost use Rattle.store_statements.specs.Between.{Stays, Tells};
ghost use Rattle.store_statements.specs.Clauses.{Lasts};
ghost use Rattle.store_statements.specs.Told.{IsRead};
ghost use Rattle.store_reads.specs.LevelLists.{token_level_shown};

use oci_types::{Fault, NameFault, RepoName, Token};
use registry_model::{Grant, Level};
use sqlite::{Alter, Connection, Error, Row};
use std::alloc::Global;
use store_contents::fault_of;
use store_statements::grant_list::list_grants;
use store_statements::grants::{level_in, token_rows};
use store_statements::telling::checked;

/// The token and the level that the row shows. `Fault::Storage` where what is there is none.
fn token_level_in(alloc: Global, row: &Row) -> Result<(Token, Level), Fault>
    ensures { IfOk result (λ it. it ≡ token_level_shown row.now) }
{
    let text: String = match row.get(0) {
        Ok(text) => text,
        Err(error) => return Err(fault_of(error)),
    };
    let number: u64 = match row.get(1) {
        Ok(number) => number,
        Err(error) => return Err(fault_of(error)),
    };
    match Token::parse(alloc, text.as_str()) {
        Ok(token) => Ok((token, level_in(number))),
        Err(NameFault::Memory) => Err(Fault::Memory),
        Err(_) => Err(Fault::Storage),
    }
}

/// The token and the level of each row, in the order of the rows.
fn levels_in(alloc: Global, rows: &[Row]) -> Result<Vec<(Token, Level)>, Fault>
    ensures { IfOk result (λ levels. levels.items ≡ map token_level_shown rows.now) }
{
    let mut levels = Vec::new(alloc);
    for row in rows {
        let level = token_level_in(alloc, row)?;
        let Ok(()) = levels.push(level) else {
            return Err(Fault::Memory);
        };
    }
    Ok(levels)
}

/// The same of rows that were asked for.
fn levels_of(alloc: Global, shown: Result<Vec<Row>, Error>) -> Result<Vec<(Token, Level)>, Fault>
    ensures { IsRead shown result (λ rows levels. levels.items ≡ map token_level_shown rows) }
{
    match shown {
        Ok(rows) => levels_in(alloc, &rows),
        Err(error) => Err(fault_of(error)),
    }
}

/// The tokens that have a level on a repository, in byte order, with their levels.
pub fn levels<S: Alter>(
    alloc: Global,
    conn: &mut Connection<S>,
    repo: &RepoName,
) -> Result<Vec<(Token, Level)>, Fault>
    ensures found { (l : Layout) → Tells S.Store l conn.old conn.new result
        (λ w levels. AreLevelsOn w repo.now levels.items) }
    ensures settled { (l : Layout) → Stays S.Store l conn.old conn.new result }
    ensures survives { Lasts S.Store conn.old conn.new }
{
    let found = levels_of(alloc, token_rows(conn, repo.as_str()));
    checked(conn, found)
}

/// Each level of a token on a repository, in byte order of the repositories, and on each of the tokens.
pub fn all_grants<S: Alter>(alloc: Global, conn: &mut Connection<S>) -> Result<Vec<Grant>, Fault>
    ensures found { (l : Layout) → Tells S.Store l conn.old conn.new result
        (λ w grants. AreLevelsOver w (repo_names_of w) grants.items) }
    ensures settled { (l : Layout) → Stays S.Store l conn.old conn.new result }
    ensures survives { Lasts S.Store conn.old conn.new }
{
    list_grants(alloc, conn)
}
