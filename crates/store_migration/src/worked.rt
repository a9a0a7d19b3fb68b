//! A migration of four rows, written out; `specs/Worked.antt` has the tables.
ghost use Rattle.std.specs.Prelude.{◌≡◌, ℤ, Some, [], ◌∷◌};
ghost use Rattle.oci_types.specs.Text.{Text};
ghost use Rattle.store_statements.specs.World.{world_of};
ghost use Rattle.store_migration.specs.OldTables.{IsOldRegistry};
ghost use Rattle.store_migration.specs.OldWorld.{old_world};
ghost use Rattle.store_migration.specs.Moves.{MovesThrough};
ghost use Rattle.store_migration.specs.Worked.{old_rows, shared, new_rows, begun, one_blob_moved, blobs_moved, one_session_moved, ended, world};

/// Each of the four rows is moved. Equal bytes are kept once: the second blob finds the content of the
/// first. The empty session gets no piece.
pub fn four_rows_are_moved()
    ensures registry { IsOldRegistry old_rows shared }
    ensures moved { MovesThrough begun
        (one_blob_moved ∷ blobs_moved ∷ one_session_moved ∷ ended ∷ []) ended }
    ensures before { old_world old_rows shared ≡ world }
    ensures after { world_of new_rows ≡ world }
    ensures once { (i j : ℤ) (bytes : Text) → new_rows.contents i ≡ Some bytes
        → new_rows.contents j ≡ Some bytes → i ≡ j }
{}
