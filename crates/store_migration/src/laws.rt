//! Laws of moving rows, which a migration relies on. Each is the contract of a function that does nothing.
ghost use Rattle.std.specs.Prelude.{◌≡◌, ℕ, List, [], true, map, find, is_some, None};
ghost use Rattle.std.specs.List.Sorted.{IsPermutation};
ghost use Rattle.sqlite.specs.Order.{Row};
ghost use Rattle.oci_types.specs.Text.{Text};
ghost use Rattle.store_statements.specs.Keys.{has_key, of_session};
ghost use Rattle.store_statements.specs.Tables.{Tables, Beside, IsEmptyBeside};
ghost use Rattle.store_statements.specs.Changes.{without, changed};
ghost use Rattle.store_statements.specs.World.{world_of};
ghost use Rattle.store_statements.specs.Registry.{is_repo, IsOfSchemaTwo, IsRegistry};
ghost use Rattle.store_migration.specs.OldTables.{OldTables, no_old_tables, IsOfSchemaOne, IsOldRegistry};
ghost use Rattle.store_migration.specs.OldWorld.{old_world};
ghost use Rattle.store_migration.specs.Both.{world_of_both, AreBoth, emptied};
ghost use Rattle.store_migration.specs.Moves.{BlobMoved, ManifestMoved, SessionMoved, Stage, MovesThrough, with_version_two};
ghost use Rattle.store_migration.specs.Listed.{key_of, session_of, left_by_keys, left_by_sessions};

/// Once the tables that only schema 2 has are made, with no row in them, the rows of both schemas stand for
/// the world of schema 1.
pub fn old_rows_stand_for_their_world()
    ensures world { (old : OldTables) (t : Tables) → IsOldRegistry old t
        → world_of_both old (emptied t) ≡ old_world old t }
    ensures both { (old : OldTables) (t : Tables) → IsOldRegistry old t → AreBoth old (emptied t) }
{}

/// What stands in a table of schema 1 does not stand in those of schema 2 under its key, and its repository
/// is there: so a row of that key can come.
pub fn an_old_key_is_free()
    ensures blobs { (old : OldTables) (t : Tables) (name digest : Text) → AreBoth old t
        → is_some (find (has_key name digest) old.blobs) ≡ true
        → (is_repo t.repos name ≡ true) × (find (has_key name digest) t.blobs ≡ None) }
    ensures manifests { (old : OldTables) (t : Tables) (name digest : Text) → AreBoth old t
        → is_some (find (has_key name digest) old.manifests) ≡ true
        → (is_repo t.repos name ≡ true) × (find (has_key name digest) t.manifests ≡ None) }
    ensures sessions { (old : OldTables) (t : Tables) (name : Text) (number : ℕ) → AreBoth old t
        → is_some (find (of_session name number) old.sessions) ≡ true
        → (is_repo t.repos name ≡ true) × (find (of_session name number) t.uploads ≡ None) }
{}

/// Where the keys of all rows are listed, in whatever order, and the rows of each key go in turn, no row is
/// left. Under a key of which no row is there, none goes.
pub fn rows_of_listed_keys_go()
    ensures keys { (keys : List (Text × Text)) (rows : List Row) → IsPermutation keys (map key_of rows)
        → left_by_keys keys rows ≡ [] }
    ensures sessions { (keys : List (Text × ℕ)) (rows : List Row) → IsPermutation keys (map session_of rows)
        → left_by_sessions keys rows ≡ [] }
    ensures gone_key { (rows : List Row) (name digest : Text) → find (has_key name digest) rows ≡ None
        → without (has_key name digest) rows ≡ rows }
    ensures gone_session { (rows : List Row) (name : Text) (number : ℕ)
        → find (of_session name number) rows ≡ None → without (of_session name number) rows ≡ rows }
{}

/// A blob is moved: the rows of both schemas stand for the same world.
pub fn a_moved_blob_stays()
    ensures world { (olds news : OldTables) (t u : Tables) → AreBoth olds t → BlobMoved olds news t u
        → world_of_both news u ≡ world_of_both olds t }
    ensures both { (olds news : OldTables) (t u : Tables) → AreBoth olds t → BlobMoved olds news t u
        → AreBoth news u }
{}

/// A manifest is moved: the rows of both schemas stand for the same world.
pub fn a_moved_manifest_stays()
    ensures world { (olds news : OldTables) (t u : Tables) → AreBoth olds t → ManifestMoved olds news t u
        → world_of_both news u ≡ world_of_both olds t }
    ensures both { (olds news : OldTables) (t u : Tables) → AreBoth olds t → ManifestMoved olds news t u
        → AreBoth news u }
{}

/// An upload session is moved, with its bytes or with none: the rows of both schemas stand for the same
/// world, and so no number is given out again.
pub fn a_moved_session_stays()
    ensures world { (olds news : OldTables) (t u : Tables) → AreBoth olds t → SessionMoved olds news t u
        → world_of_both news u ≡ world_of_both olds t }
    ensures repos { (olds news : OldTables) (t u : Tables) → SessionMoved olds news t u → u.repos ≡ t.repos }
    ensures both { (olds news : OldTables) (t u : Tables) → AreBoth olds t → SessionMoved olds news t u
        → AreBoth news u }
{}

/// The version of schema 1, raised, is that of schema 2.
pub fn the_version_becomes_two()
    ensures { (rows : List Row) → IsOfSchemaOne rows
        → IsOfSchemaTwo (changed (λ r. true) with_version_two rows) }
{}

/// Once no row is left in the tables of schema 1 and the version is 2, the tables are a registry's, of the
/// same world, whatever tables stand empty beside them.
pub fn no_old_row_is_left()
    ensures world { (t : Tables) (version : List Row) → AreBoth no_old_tables t → IsOfSchemaTwo version
        → world_of (record t { version = version }) ≡ world_of_both no_old_tables t }
    ensures registry { (t : Tables) (version : List Row) (beside : Beside) → AreBoth no_old_tables t
        → IsOfSchemaTwo version → IsEmptyBeside beside
        → IsRegistry (record t { version = version; beside = beside }) }
{}

/// However many rows are moved, and in whatever order, the rows of both schemas stand for the same world
/// after each of them.
pub fn moved_rows_stay()
    ensures world { (first : Stage) (stages : List Stage) (last : Stage) → AreBoth first.old first.tables
        → MovesThrough first stages last
        → world_of_both last.old last.tables ≡ world_of_both first.old first.tables }
    ensures both { (first : Stage) (stages : List Stage) (last : Stage) → AreBoth first.old first.tables
        → MovesThrough first stages last → AreBoth last.old last.tables }
{}

/// The tables of schema 1 become those of schema 2, row by row: they stand for the world as it was.
pub fn a_migration_keeps_the_world()
    ensures world { (old : OldTables) (t u : Tables) (stages : List Stage) (version : List Row)
        → IsOldRegistry old t
        → MovesThrough (record { old = old; tables = emptied t }) stages
        (record { old = no_old_tables; tables = u })
        → IsOfSchemaTwo version → world_of (record u { version = version }) ≡ old_world old t }
    ensures registry { (old : OldTables) (t u : Tables) (stages : List Stage) (version : List Row)
        (beside : Beside) → IsOldRegistry old t
        → MovesThrough (record { old = old; tables = emptied t }) stages
        (record { old = no_old_tables; tables = u })
        → IsOfSchemaTwo version → IsEmptyBeside beside
        → IsRegistry (record u { version = version; beside = beside }) }
{}
