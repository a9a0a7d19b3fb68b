//! One change of the rows, in a transaction of its own.
ghost use Rattle.std.specs.Prelude.{◌≡◌, ◌<◌, ◌^◌, IfOk, OnErr, ⊤, ℕ, List};
ghost use Rattle.std.specs.List.{AllByRecursion};
ghost use Rattle.sqlite.specs.State.{HasCleanDisk};
ghost use Rattle.sqlite.specs.Held.{state};
ghost use Rattle.registry_pack.specs.Extents.{size_of, total_of};
ghost use Rattle.store_statements.specs.Clauses.{Lasts};
ghost use Rattle.store_pack.specs.Commits.{IsSettled, IsBack, Becomes, Outcomes, Ends};
ghost use Rattle.store_pack.specs.Pack.{PackSays, PutsPack};
ghost use Rattle.store_places.specs.Places.{Adds, Removes};
ghost use Rattle.store_contents.specs.declared.content_id.ContentId.{ContentId};

use crate::pack_row::set_age;
use oci_types::Fault;
use registry_pack::Extent;
use sqlite::{Alter, Connection, Transaction};
use store_contents::{ContentId, fault_of};
use store_places::{add_content, remove_content};

/// Commits the transaction where its work was done, and gives it up where the work failed.
fn end<S: Alter, T: Copy>(tx: Transaction<'_, S>, done: Result<T, Fault>) -> Result<T, Fault>
    ensures ended { Ends (state S.Store tx.entry.conn.now) (state S.Store tx.exit.0.now) done result }
{
    match done {
        Ok(value) => match tx.commit() {
            Ok(()) => Ok(value),
            Err(error) => Err(fault_of(error)),
        },
        Err(fault) => Err(fault),
    }
}

/// Adds a content in a transaction of its own.
pub(crate) fn commit_content<S: Alter>(
    conn: &mut Connection<S>,
    sha256: &str,
    extents: &[Extent],
) -> Result<ContentId, Fault>
    requires fits { total_of extents.now < 2 ^ 63 }
    requires some { AllByRecursion (λ e. 0 < size_of e) extents.now }
    ensures put { HasCleanDisk (state S.Store conn.new) → IsSettled (state S.Store conn.old)
        → IfOk result (λ it. Becomes (λ a b (v : ContentId). Adds a b v.id sha256.now extents.now)
        (state S.Store conn.old) (state S.Store conn.new) it) }
    ensures back { HasCleanDisk (state S.Store conn.new) → IsSettled (state S.Store conn.old)
        → OnErr result (IsBack (state S.Store conn.old) (state S.Store conn.new)) }
    ensures crash { HasCleanDisk (state S.Store conn.new) → IsSettled (state S.Store conn.old)
        → Outcomes (λ a b (v : ContentId). Adds a b v.id sha256.now extents.now)
        (state S.Store conn.old) (state S.Store conn.new) }
{
    if !conn.is_autocommit() {
        return Err(Fault::Storage);
    }
    let mut tx = conn.transaction();
    let done = add_content(&mut tx, sha256, extents);
    end(tx, done)
}

/// Takes a content out in a transaction of its own.
pub(crate) fn commit_removal<S: Alter>(conn: &mut Connection<S>, id: ContentId) -> Result<(), Fault>
    ensures removed { HasCleanDisk (state S.Store conn.new) → IsSettled (state S.Store conn.old)
        → IfOk result (λ it. Becomes (λ a b (v : ⊤). Removes a b id.id)
        (state S.Store conn.old) (state S.Store conn.new) it) }
    ensures back { HasCleanDisk (state S.Store conn.new) → IsSettled (state S.Store conn.old)
        → OnErr result (IsBack (state S.Store conn.old) (state S.Store conn.new)) }
    ensures crash { HasCleanDisk (state S.Store conn.new) → IsSettled (state S.Store conn.old)
        → Outcomes (λ a b (v : ⊤). Removes a b id.id)
        (state S.Store conn.old) (state S.Store conn.new) }
{
    if !conn.is_autocommit() {
        return Err(Fault::Storage);
    }
    let mut tx = conn.transaction();
    let done = remove_content(&mut tx, id);
    end(tx, done)
}

/// Sets the age of the rows in a transaction of its own.
pub(crate) fn commit_age<S: Alter>(conn: &mut Connection<S>, age: u64) -> Result<(), Fault>
    requires fits { age < 2 ^ 63 }
    ensures set { HasCleanDisk (state S.Store conn.new) → IsSettled (state S.Store conn.old)
        → (mark : List ℕ) (was : ℕ) → PackSays (state S.Store conn.old).now mark was
        → IfOk result (λ it. Becomes (λ a b (v : ⊤). PutsPack a b mark age)
        (state S.Store conn.old) (state S.Store conn.new) it) }
    ensures back { HasCleanDisk (state S.Store conn.new) → IsSettled (state S.Store conn.old)
        → (mark : List ℕ) (was : ℕ) → PackSays (state S.Store conn.old).now mark was
        → OnErr result (IsBack (state S.Store conn.old) (state S.Store conn.new)) }
    ensures crash { HasCleanDisk (state S.Store conn.new) → IsSettled (state S.Store conn.old)
        → (mark : List ℕ) (was : ℕ) → PackSays (state S.Store conn.old).now mark was
        → Outcomes (λ a b (v : ⊤). PutsPack a b mark age)
        (state S.Store conn.old) (state S.Store conn.new) }
    ensures survives { Lasts S.Store conn.old conn.new }
{
    if !conn.is_autocommit() {
        return Err(Fault::Storage);
    }
    let mut tx = conn.transaction();
    let done = set_age(&mut tx, age);
    end(tx, done)
}
