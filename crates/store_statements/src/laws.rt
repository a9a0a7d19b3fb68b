//! Laws of rows, which the store above relies on.
ghost use Rattle.std.specs.Prelude.{◌≡◌, List};
ghost use Rattle.sqlite.specs.Order.{Row};
ghost use Rattle.registry_model.specs.World.{no_world};
ghost use Rattle.store_statements.specs.Tables.{Beside, IsEmptyBeside, new_tables};
ghost use Rattle.store_statements.specs.World.{world_of};
ghost use Rattle.store_statements.specs.Registry.{IsOfSchemaTwo, IsRegistry};

/// Tables without rows, but for one that says which schema they are, stand for the world without
/// repositories and grants.
pub fn tables_that_are_new()
    ensures world { (version : List Row) (beside : Beside) → world_of (new_tables version beside) ≡ no_world }
    ensures registry { (version : List Row) (beside : Beside) → IsOfSchemaTwo version
        → IsEmptyBeside beside → IsRegistry (new_tables version beside) }
{}
