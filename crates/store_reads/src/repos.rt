//! Which repositories there are, and what their rows have.
ghost use Rattle.std.specs.Prelude.{◌≡◌};
ghost use Rattle.registry_model.specs.World.{has_repo};
ghost use Rattle.registry_model.specs.Keeping.{names_shown};
ghost use Rattle.registry_model.specs.Lookups.{last_number_at, repo_count, repo_names_of};
ghost use Rattle.store_contents.specs.Layouts.{Layout};
ghost use Rattle.store_statements.specs.Between.{Keeps, Stays, Tells};
ghost use Rattle.store_statements.specs.Clauses.{Lasts};

use oci_types::{Fault, RepoName};
use sqlite::{Alter, Connection};
use std::alloc::Global;
use store_statements::repos::{self, find_repo, list_repos};

/// Whether the repository is there.
pub fn has_repo<S: Alter>(conn: &mut Connection<S>, repo: &RepoName) -> Result<bool, Fault>
    ensures found { (l : Layout) → Tells S.Store l conn.old conn.new result (λ w v. v ≡ has_repo w repo.now) }
    ensures settled { (l : Layout) → Stays S.Store l conn.old conn.new result }
    ensures survives { Lasts S.Store conn.old conn.new }
{
    match find_repo(conn, repo.as_str()) {
        Ok(Some(_)) => Ok(true),
        Ok(None) => Ok(false),
        Err(fault) => Err(fault),
    }
}

/// The last number that an upload session got; 0 where none did.
pub fn last_number<S: Alter>(conn: &mut Connection<S>, repo: &RepoName) -> Result<u64, Fault>
    ensures found { (l : Layout)
        → Tells S.Store l conn.old conn.new result (λ w v. v ≡ last_number_at w repo.now) }
    ensures settled { (l : Layout) → Stays S.Store l conn.old conn.new result }
    ensures kept { (l : Layout) → Keeps S.Store l conn.old conn.new }
    ensures survives { Lasts S.Store conn.old conn.new }
{
    match find_repo(conn, repo.as_str()) {
        Ok(Some(row)) => Ok(row.last),
        Ok(None) => Ok(0),
        Err(fault) => Err(fault),
    }
}

/// The names of the repositories, in byte order. Reads nothing of what they hold.
pub fn repo_names<S: Alter>(alloc: Global, conn: &mut Connection<S>) -> Result<Vec<RepoName>, Fault>
    ensures found { (l : Layout)
        → Tells S.Store l conn.old conn.new result (λ w names. names_shown names ≡ repo_names_of w) }
    ensures settled { (l : Layout) → Stays S.Store l conn.old conn.new result }
    ensures survives { Lasts S.Store conn.old conn.new }
{
    list_repos(alloc, conn)
}

/// How many repositories there are.
pub fn count_repos<S: Alter>(conn: &mut Connection<S>) -> Result<u64, Fault>
    ensures found { (l : Layout) → Tells S.Store l conn.old conn.new result (λ w n. n ≡ repo_count w) }
    ensures settled { (l : Layout) → Stays S.Store l conn.old conn.new result }
    ensures survives { Lasts S.Store conn.old conn.new }
{
    match repos::count_repos(conn) {
        Ok(count) => Ok(count as u64),
        Err(fault) => Err(fault),
    }
}
