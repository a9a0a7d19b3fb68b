//! All grants, in the order of their repositories.
ghost use Rattle.std.specs.Prelude.{◌≡◌, map};
ghost use Rattle.sqlite_keyed.specs.Lists.{sort_by};
ghost use Rattle.store_contents.specs.Layouts.{Layout};
ghost use Rattle.store_statements.specs.Between.{Finds, Stays};
ghost use Rattle.store_statements.specs.Clauses.{Lasts};
ghost use Rattle.store_statements.specs.Shown.{by_repo_and_token, grant_row, grant_shown};

use crate::grants::level_in;
use crate::reading::{FromRow, all, parsed};
use crate::telling::checked;
use oci_types::{Fault, RepoName, Token};
use registry_model::Grant;
use sqlite::{Alter, Connection, Error, Row};
use std::alloc::Global;

impl FromRow for Grant {
    ghost shown = { grant_shown };

    fn read(alloc: Global, row: &Row) -> Result<Grant, Error> {
        let text: String = row.get(1)?;
        let number: u64 = row.get(2)?;
        let repo = RepoName::read(alloc, row)?;
        let token = parsed(Token::parse(alloc, text.as_str()))?;
        Ok(Grant {
            repo,
            token,
            level: level_in(number),
        })
    }
}

/// Each grant, in byte order of the repositories, and on each of the tokens.
pub fn list_grants<S: Alter>(alloc: Global, conn: &mut Connection<S>) -> Result<Vec<Grant>, Fault>
    ensures found { (l : Layout) → Finds S.Store l conn.old conn.new result
        (λ t grants. grants.items ≡ map grant_row (sort_by by_repo_and_token t.grants)) }
    ensures settled { (l : Layout) → Stays S.Store l conn.old conn.new result }
    ensures survives { Lasts S.Store conn.old conn.new }
{
    let shown = conn.query_all(
        "SELECT repo, token, level FROM registry_grants ORDER BY repo, token",
        &[],
    );
    let found = all(alloc, shown);
    checked(conn, found)
}
