//! What a repository holds, by what is known of it or by its rows.
ghost use Rattle.std.specs.Prelude.{◌≡◌};
ghost use Rattle.registry_model.specs.Lookups.{usage_at};
ghost use Rattle.store_contents.specs.Layouts.{Layout};
ghost use Rattle.store_statements.specs.Between.{Stays, Tells};
ghost use Rattle.store_statements.specs.Clauses.{Lasts};
ghost use Rattle.registry_store.specs.Usages.{IsKnown, StaysKnown};

use crate::known_usages::KnownUsages;
use oci_types::{Fault, RepoName};
use registry_model::Usage;
use sqlite::{Alter, Connection};
use std::alloc::Global;

/// What a repository holds and may hold, in bytes and numbers of things: what is known of it, or else what
/// its rows tell, which is known from then on. After `Fault::Memory` no table has changed.
pub fn recalled_usage<S: Alter>(
    alloc: Global,
    conn: &mut Connection<S>,
    known: &mut KnownUsages,
    repo: &RepoName,
) -> Result<Usage, Fault>
    ensures found { (l : Layout) → IsKnown S.Store l conn.old known.old
        → Tells S.Store l conn.old conn.new result (λ w u. u ≡ usage_at w repo.now) }
    ensures settled { (l : Layout) → Stays S.Store l conn.old conn.new result }
    ensures survives { Lasts S.Store conn.old conn.new }
    ensures known { (l : Layout) → IsKnown S.Store l conn.old known.old
        → StaysKnown S.Store l conn.old conn.new known.new result }
{
    if let Some(usage) = known.usage(repo) {
        return Ok(usage);
    }
    match store_reads::usage(alloc, conn, repo) {
        Ok(usage) => {
            known.keep(repo, usage);
            Ok(usage)
        }
        Err(fault) => Err(fault),
    }
}
