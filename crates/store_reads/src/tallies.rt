//! How many blobs, manifests and upload sessions a repository has, and how many bytes.
ghost use Rattle.std.specs.Prelude.{◌≡◌, false, IfOk, IsOkAnd};
ghost use Rattle.store_contents.specs.Layouts.{Layout};
ghost use Rattle.store_statements.specs.Between.{Finds, Stays};
ghost use Rattle.store_statements.specs.Clauses.{Lasts};
ghost use Rattle.store_statements.specs.Held.{is_storage};
ghost use Rattle.store_reads.specs.Tallies.{tally_of, holdings_in};

use oci_types::{Fault, RepoName};
use sqlite::{Alter, Connection};
use std::alloc::Global;
use store_statements::blobs::blob_sizes;
use store_statements::manifests::manifest_sizes;
use store_statements::uploads::upload_sizes;

/// How many things of a kind a repository has, and how many bytes they have together: the largest
/// number of 64 bits where they have more.
#[derive(Clone, Copy)]
pub(crate) struct Tally {
    pub number: u64,
    pub bytes: u64,
}

/// What a repository has of all three.
#[derive(Clone, Copy)]
pub(crate) struct Holdings {
    pub blobs: Tally,
    pub manifests: Tally,
    pub sessions: Tally,
}

fn added_up(sizes: &[u64]) -> Tally
    ensures { result ≡ tally_of sizes.now }
{
    let mut bytes: u64 = 0;
    for size in sizes {
        bytes = bytes.saturating_add(*size);
    }
    Tally {
        number: sizes.len() as u64,
        bytes,
    }
}

/// The same of sizes that were found.
pub(crate) fn tallied(found: Result<Vec<u64>, Fault>) -> Result<Tally, Fault>
    ensures value { IfOk result (λ tally. IsOkAnd found (λ sizes. tally ≡ tally_of sizes.items)) }
    ensures storage { is_storage result ≡ false → is_storage found ≡ false }
{
    match found {
        Ok(sizes) => Ok(added_up(&sizes)),
        Err(fault) => Err(fault),
    }
}

/// What the repository has of blobs, manifests and open upload sessions. Reads none of their bytes.
pub(crate) fn read_holdings<S: Alter>(
    alloc: Global,
    conn: &mut Connection<S>,
    repo: &RepoName,
) -> Result<Holdings, Fault>
    ensures found { (l : Layout)
        → Finds S.Store l conn.old conn.new result (λ t h. h ≡ holdings_in t repo.now) }
    ensures settled { (l : Layout) → Stays S.Store l conn.old conn.new result }
    ensures survives { Lasts S.Store conn.old conn.new }
{
    let repo = repo.as_str();
    let blobs = tallied(blob_sizes(alloc, conn, repo))?;
    let manifests = tallied(manifest_sizes(alloc, conn, repo))?;
    let sessions = tallied(upload_sizes(alloc, conn, repo))?;
    Ok(Holdings {
        blobs,
        manifests,
        sessions,
    })
}
