//! What repositories hold and may hold.
ghost use Rattle.std.specs.Prelude.{◌≡◌, filter, length};
ghost use Rattle.registry_model.specs.Keeping.{usages_shown};
ghost use Rattle.registry_model.specs.Lookups.{usage_at, usages_of};
ghost use Rattle.store_contents.specs.Layouts.{Layout};
ghost use Rattle.store_statements.specs.Keys.{of_first};
ghost use Rattle.store_statements.specs.Between.{Finds, Stays, Tells};
ghost use Rattle.store_statements.specs.Clauses.{Lasts};
ghost use Rattle.store_reads.specs.Each.{AreTold};
ghost use Rattle.store_reads.specs.Tallies.{holdings_in, usage_from, named_usage};

use crate::found_lists::push_found;
use crate::tallies::{Holdings, read_holdings};
use oci_types::{Fault, RepoName};
use registry_model::Usage;
use sqlite::{Alter, Connection};
use std::alloc::Global;
use store_statements::repos::{find_repo, list_repos};
use store_statements::tags::count_tags;

const NO_USAGE: Usage = Usage {
    used: 0,
    quota: 0,
    blobs: 0,
    manifests: 0,
    tags: 0,
    sessions: 0,
};

fn taken_together(holdings: Holdings, tags: u64, quota: u64) -> Usage
    ensures { result ≡ usage_from holdings tags quota }
{
    let Holdings {
        blobs,
        manifests,
        sessions,
    } = holdings;
    Usage {
        used: blobs
            .bytes
            .saturating_add(manifests.bytes)
            .saturating_add(sessions.bytes),
        quota,
        blobs: blobs.number,
        manifests: manifests.number,
        tags,
        sessions: sessions.number,
    }
}

/// What a repository of the quota holds and may hold. The quota is in bytes.
fn usage_under<S: Alter>(
    alloc: Global,
    conn: &mut Connection<S>,
    repo: &RepoName,
    quota: u64,
) -> Result<Usage, Fault>
    ensures found { (l : Layout) → Finds S.Store l conn.old conn.new result
        (λ t u. u ≡ usage_from (holdings_in t repo.now) (length (filter (of_first repo.now) t.tags)) quota) }
    ensures settled { (l : Layout) → Stays S.Store l conn.old conn.new result }
    ensures survives { Lasts S.Store conn.old conn.new }
{
    let holdings = read_holdings(alloc, conn, repo)?;
    let tags = count_tags(conn, repo.as_str())?;
    Ok(taken_together(holdings, tags as u64, quota))
}

/// What a repository holds and may hold: nothing where it is not there. Reads no blob and no manifest.
pub fn usage<S: Alter>(
    alloc: Global,
    conn: &mut Connection<S>,
    repo: &RepoName,
) -> Result<Usage, Fault>
    ensures found { (l : Layout) → Tells S.Store l conn.old conn.new result (λ w u. u ≡ usage_at w repo.now) }
    ensures settled { (l : Layout) → Stays S.Store l conn.old conn.new result }
    ensures survives { Lasts S.Store conn.old conn.new }
{
    match find_repo(conn, repo.as_str()) {
        Ok(Some(row)) => usage_under(alloc, conn, repo, row.quota),
        Ok(None) => Ok(NO_USAGE),
        Err(fault) => Err(fault),
    }
}

/// With the name goes what the repository holds and may hold.
fn with_usage<S: Alter>(
    alloc: Global,
    conn: &mut Connection<S>,
    repo: RepoName,
) -> Result<(RepoName, Usage), Fault>
    ensures found { (l : Layout) → Tells S.Store l conn.old conn.new result
        (λ w named. named ≡ named_usage w repo) }
    ensures settled { (l : Layout) → Stays S.Store l conn.old conn.new result }
    ensures survives { Lasts S.Store conn.old conn.new }
{
    match usage(alloc, conn, &repo) {
        Ok(held) => Ok((repo, held)),
        Err(fault) => Err(fault),
    }
}

/// The same of each of them, in their order.
fn with_usages<S: Alter>(
    alloc: Global,
    conn: &mut Connection<S>,
    repos: Vec<RepoName>,
) -> Result<Vec<(RepoName, Usage)>, Fault>
    ensures found { (l : Layout) → Tells S.Store l conn.old conn.new result
        (λ w all. AreTold (λ repo named. named ≡ named_usage w repo) repos.items all.items) }
    ensures settled { (l : Layout) → Stays S.Store l conn.old conn.new result }
    ensures survives { Lasts S.Store conn.old conn.new }
{
    let mut all = Vec::new(alloc);
    for repo in repos {
        push_found(&mut all, with_usage(alloc, conn, repo))?;
    }
    Ok(all)
}

/// What each repository holds and may hold, in byte order of names. Reads no blob and no manifest.
pub fn usages<S: Alter>(
    alloc: Global,
    conn: &mut Connection<S>,
) -> Result<Vec<(RepoName, Usage)>, Fault>
    ensures found { (l : Layout)
        → Tells S.Store l conn.old conn.new result (λ w all. usages_shown all ≡ usages_of w) }
    ensures settled { (l : Layout) → Stays S.Store l conn.old conn.new result }
    ensures survives { Lasts S.Store conn.old conn.new }
{
    let repos = list_repos(alloc, conn)?;
    with_usages(alloc, conn, repos)
}
