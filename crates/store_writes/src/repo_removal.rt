//! A repository goes with all that it has.
ghost use Rattle.std.specs.Prelude.{◌≡◌, OnOk};
ghost use Rattle.sqlite.specs.State.{HasCleanDisk};
ghost use Rattle.sqlite.specs.Held.{state};
ghost use Rattle.registry_model.specs.Command.{drop_repo};
ghost use Rattle.store_contents.specs.Layouts.{Layout};
ghost use Rattle.store_statements.specs.Between.{CrashLeaves, GoesBack, MakesWorld, Relates, StaysOnMemory};
ghost use Rattle.store_statements.specs.Clauses.{KeepsInside, Lasts, LastsUncommitted};
ghost use Rattle.store_statements.specs.Tables.{IsEmptyBeside};
ghost use Rattle.store_statements.specs.Held.{IsReady, Becomes, held};
ghost use Rattle.store_statements.specs.Drops.{dropped};
ghost use Rattle.store_statements.specs.PlaceChanges.{KeepsPlaces};

use crate::change::Change;
use crate::changing::make;
use oci_types::{Fault, RepoName};
use sqlite::{Alter, Connection, Transaction};
use store_statements::blobs::take_blob_links;
use store_statements::grants::take_grants;
use store_statements::manifests::take_manifest_links;
use store_statements::pieces::take_pieces;
use store_statements::repos::take_repo;
use store_statements::tags::take_tags;
use store_statements::uploads::take_uploads;

/// Takes the repository out, where it is there, with its tags, links, upload sessions and grants.
/// Contents stay, also those that nothing names any more. No further table has a row that may go with it.
pub(crate) fn drop_rows<S: Alter>(tx: &mut Transaction<'_, S>, name: &str) -> Result<(), Fault>
    ensures dropped { (l : Layout) → HasCleanDisk (state S.Store tx.new.conn.now)
        → IsReady l (state S.Store tx.old.conn.now)
        → IsEmptyBeside (held l (state S.Store tx.old.conn.now)).beside
        → OnOk result
        (Becomes l (state S.Store tx.new.conn.now) (dropped name.now (held l (state S.Store
        tx.old.conn.now)))) }
    ensures kept { (l : Layout) → KeepsInside S.Store l tx.old.conn.now tx.new.conn.now }
    ensures same_reference { tx.new.conn.ghost_name ≡ tx.old.conn.ghost_name }
    ensures survives { LastsUncommitted S.Store tx.old.conn.now tx.new.conn.now }
{
    take_tags(tx, name)?;
    take_manifest_links(tx, name)?;
    take_blob_links(tx, name)?;
    take_pieces(tx, name)?;
    take_uploads(tx, name)?;
    take_grants(tx, name)?;
    take_repo(tx, name)
}

/// Takes a repository away, with what it holds and every level on it.
pub fn drop_repo<S: Alter>(conn: &mut Connection<S>, name: &RepoName) -> Result<(), Fault>
    ensures made { (l : Layout) → MakesWorld S.Store l conn.old conn.new result (λ w. drop_repo w name.now) }
    ensures stays { (l : Layout)
        → Relates S.Store l conn.old conn.new result (λ t u. u.contents ≡ t.contents) }
    ensures places { (l : Layout) → Relates S.Store l conn.old conn.new result KeepsPlaces }
    ensures memory { (l : Layout) → StaysOnMemory S.Store l conn.old conn.new result }
    ensures back { (l : Layout) → GoesBack S.Store l conn.old conn.new result }
    ensures crash { (l : Layout)
        → CrashLeaves S.Store l conn.old conn.new result (λ w. drop_repo w name.now) }
    ensures survives { Lasts S.Store conn.old conn.new }
{
    make(
        conn,
        Change::DropRepo {
            repo: name.as_str(),
        },
    )
}
