//! A blob of one repository becomes one of another as well.
ghost use Rattle.std.specs.Prelude.{◌≡◌, true, None, find};
ghost use Rattle.registry_model.specs.World.{has_repo};
ghost use Rattle.registry_model.specs.Lookups.{mount};
ghost use Rattle.store_contents.specs.Layouts.{Layout};
ghost use Rattle.store_statements.specs.Keys.{has_key};
ghost use Rattle.store_statements.specs.Between.{CrashLeaves, GoesBack, MakesWorld, Relates, StaysOnMemory};
ghost use Rattle.store_statements.specs.Clauses.{Lasts, TablesHave, WorldHas};
ghost use Rattle.store_statements.specs.PlaceChanges.{KeepsPlaces};

use crate::change::Change;
use crate::changing::make;
use oci_types::{Digest, Fault, RepoName};
use sqlite::{Alter, Connection};
use store_statements::blobs::find_blob_link;
use store_statements::numbers::LARGEST;

/// Adds the link that the one repository has to the other, which has none.
fn mount_link<S: Alter>(
    conn: &mut Connection<S>,
    from: &str,
    to: &str,
    digest: &str,
) -> Result<(), Fault>
    ensures made { (l : Layout) → WorldHas S.Store l conn.old (λ w. has_repo w to.now ≡ true)
        → TablesHave S.Store l conn.old (λ t. find (has_key to.now digest.now) t.blobs ≡ None)
        → MakesWorld S.Store l conn.old conn.new result (λ w. mount w from.now to.now digest.now) }
    ensures stays { (l : Layout)
        → TablesHave S.Store l conn.old (λ t. find (has_key to.now digest.now) t.blobs ≡ None)
        → Relates S.Store l conn.old conn.new result (λ t u. u.contents ≡ t.contents) }
    ensures places { (l : Layout)
        → TablesHave S.Store l conn.old (λ t. find (has_key to.now digest.now) t.blobs ≡ None)
        → Relates S.Store l conn.old conn.new result KeepsPlaces }
    ensures memory { (l : Layout)
        → TablesHave S.Store l conn.old (λ t. find (has_key to.now digest.now) t.blobs ≡ None)
        → StaysOnMemory S.Store l conn.old conn.new result }
    ensures back { (l : Layout)
        → TablesHave S.Store l conn.old (λ t. find (has_key to.now digest.now) t.blobs ≡ None)
        → GoesBack S.Store l conn.old conn.new result }
    ensures crash { (l : Layout) → WorldHas S.Store l conn.old (λ w. has_repo w to.now ≡ true)
        → TablesHave S.Store l conn.old (λ t. find (has_key to.now digest.now) t.blobs ≡ None)
        → CrashLeaves S.Store l conn.old conn.new result (λ w. mount w from.now to.now digest.now) }
    ensures survives { Lasts S.Store conn.old conn.new }
{
    match find_blob_link(conn, from, digest) {
        // each size that a row has fits
        Ok(Some(link)) if link.size <= LARGEST => make(
            conn,
            Change::AddLink {
                repo: to,
                digest,
                link,
            },
        ),
        Ok(_) => Err(Fault::Storage),
        Err(fault) => Err(fault),
    }
}

/// Adds a blob that another repository has, or the same one: its content is kept once. `Fault::Storage`
/// also where that repository has none such.
pub fn mount<S: Alter>(
    conn: &mut Connection<S>,
    from: &RepoName,
    to: &RepoName,
    digest: &Digest,
) -> Result<(), Fault>
    ensures made { (l : Layout) → WorldHas S.Store l conn.old (λ w. has_repo w to.now ≡ true)
        → MakesWorld S.Store l conn.old conn.new result (λ w. mount w from.now to.now digest.now) }
    ensures stays { (l : Layout)
        → Relates S.Store l conn.old conn.new result (λ t u. u.contents ≡ t.contents) }
    ensures places { (l : Layout) → Relates S.Store l conn.old conn.new result KeepsPlaces }
    ensures memory { (l : Layout) → StaysOnMemory S.Store l conn.old conn.new result }
    ensures back { (l : Layout) → GoesBack S.Store l conn.old conn.new result }
    ensures crash { (l : Layout) → WorldHas S.Store l conn.old (λ w. has_repo w to.now ≡ true)
        → CrashLeaves S.Store l conn.old conn.new result
        (λ w. mount w from.now to.now digest.now) }
    ensures survives { Lasts S.Store conn.old conn.new }
{
    let source = from.as_str();
    let target = to.as_str();
    let text = digest.as_str();
    match find_blob_link(conn, target, text) {
        Ok(Some(_)) => Ok(()),
        Ok(None) => mount_link(conn, source, target, text),
        Err(fault) => Err(fault),
    }
}
