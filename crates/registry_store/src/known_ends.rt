//! Upload sessions that end unread.
ghost use Rattle.registry_model.specs.Closing.{session_matches, finish_as_is};
ghost use Rattle.std.specs.Prelude.{IfOk};
ghost use Rattle.store_statements.specs.Clauses.{Lasts};
ghost use Rattle.registry_store.specs.Calls.{DoneWhereSo, StaysKnowing, StaysOnMemory};
ghost use Rattle.registry_store.specs.Kept.{IsClean, IsInOrder};
ghost use Rattle.registry_store.specs.KeptWrites.{LeavesWhereSo};

use crate::counted_sessions;
use crate::known_usages::KnownUsages;
use oci_types::{Digest, Fault, RepoName};
use sqlite::{Alter, Connection};
use std::alloc::Global;
use store_bytes::Contents;

/// Ends an open session whose bytes are known to match the digest, and they are a blob; a digest that is
/// there keeps its bytes. Answers whether it did so; where it did not, nothing has changed. Over a pack, too,
/// it touches the rows alone.
pub(crate) fn finish_known<S: Alter, C: Contents>(
    alloc: Global,
    conn: &mut Connection<S>,
    known: &mut KnownUsages,
    contents: &C,
    repo: &RepoName,
    number: u64,
    digest: &Digest,
) -> Result<bool, Fault>
    ensures made { IsClean S.Store C.Contents (conn.new, contents.now)
        → IsInOrder S.Store C.Contents (conn.old, contents.now)
        → IfOk result
        (λ done. DoneWhereSo S.Store C.Contents (conn.old, contents.now) (conn.new, contents.now) done
        (λ w. session_matches w repo.now number digest.now)
        (λ w. finish_as_is w repo.now number digest.now)) }
    ensures memory { StaysOnMemory S.Store C.Contents (conn.old, contents.now) (conn.new, contents.now)
        result }
    ensures crash { IsClean S.Store C.Contents (conn.new, contents.now)
        → IsInOrder S.Store C.Contents (conn.old, contents.now)
        → LeavesWhereSo S.Store C.Contents (conn.old, contents.now) (conn.new, contents.now) result
        (λ w. session_matches w repo.now number digest.now)
        (λ w. finish_as_is w repo.now number digest.now) }
    ensures survives { Lasts S.Store conn.old conn.new }
    ensures known { StaysKnowing S.Store C.Contents (conn.old, contents.now) (conn.new, contents.now) result
        known.old known.new }
{
    counted_sessions::finish_known(alloc, conn, known, contents, repo, number, digest)
}
