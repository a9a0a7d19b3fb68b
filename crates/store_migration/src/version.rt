//! Which schema the tables are.
ghost use Rattle.std.specs.Prelude.{◌≡◌, true, OnOk};
ghost use Rattle.sqlite.specs.Held.{state};
ghost use Rattle.store_contents.specs.Layouts.{InTables};
ghost use Rattle.store_statements.specs.Changes.{changed};
ghost use Rattle.store_statements.specs.Clauses.{KeepsInside, LastsUncommitted};
ghost use Rattle.store_statements.specs.Held.{Becomes, held};
ghost use Rattle.store_migration.specs.OldTables.{IsOfSchemaOne};
ghost use Rattle.store_migration.specs.Moves.{with_version_two};
ghost use Rattle.store_migration.specs.Clauses.{OverBoth};

use oci_types::Fault;
use sqlite::{Alter, Transaction};
use store_contents::done;

/// Makes the one row of `registry_schema` say 2.
pub fn raise_version<S: Alter>(tx: &mut Transaction<'_, S>) -> Result<(), Fault>
    ensures raised { OverBoth S.Store tx.old.conn.now tx.new.conn.now
        (IsOfSchemaOne (held InTables (state S.Store tx.old.conn.now)).version
        → OnOk result (Becomes InTables (state S.Store tx.new.conn.now)
        (record (held InTables (state S.Store tx.old.conn.now)) {
          version = changed (λ r. true) with_version_two
              (held InTables (state S.Store tx.old.conn.now)).version;
        }))) }
    ensures kept { KeepsInside S.Store InTables tx.old.conn.now tx.new.conn.now }
    ensures same_reference { tx.new.conn.ghost_name ≡ tx.old.conn.ghost_name }
    ensures survives { LastsUncommitted S.Store tx.old.conn.now tx.new.conn.now }
{
    done(tx.execute("UPDATE registry_schema SET version = 2", &[]))
}
