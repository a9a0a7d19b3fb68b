//! What a database is found to be as a registry over a pack is opened on it.
ghost use Rattle.std.specs.Prelude.{◌≡◌, ◌≢◌, ◌⊎◌, ℕ, ℤ, List, pos, true, false, Ok, Some, None, OnOk, OnErr, IfOk, IfErr, MatchOption, MatchResult, codes};
ghost use Rattle.sqlite.specs.State.{HasCleanDisk, IsUnchanged};
ghost use Rattle.sqlite.specs.Held.{state};
ghost use Rattle.store_contents.specs.Layouts.{InPack};
ghost use Rattle.store_statements.specs.Clauses.{Lasts, LastsUncommitted, LeavesEither};
ghost use Rattle.store_statements.specs.Held.{StaysSettled, IsBack};
ghost use Rattle.store_opening.specs.Opening.{IsIdle, HoldsRegistry, KnowsVersion, versions_in, has_version_table};
ghost use Rattle.store_opening.specs.Asking.{IsWanting, IsWantingOr, IsUnnumbered, IsOfSchema, ShowsAlone};
ghost use Rattle.pack_opening.specs.Making.{IsPackRegistry};
ghost use Rattle.pack_opening.specs.Asking.{has_table, has_pack_table, NamesNotThree, IsToldOther};

use sqlite::{Alter, Connection};
use store_opening::{OpenFault, read_version};

/// Whether there is a table of this name. Reads no row.
fn is_there<S: Alter>(conn: &Connection<S>, name: &[u8]) -> bool
    ensures { result ≡ has_table (state S.Store conn.now).now.schema name.now }
{
    conn.schema().table_named(name).is_some()
}

/// What the schema that was found comes to: 3 alone is served, where there is a table of the pack.
fn only_three(found: Result<i64, OpenFault>, is_packed: bool) -> Result<(), OpenFault>
    ensures three { OnOk result ((found ≡ Ok (pos 3)) × (is_packed ≡ true)) }
    ensures other { IfErr result
        (λ e. IfOk found (λ n. ((n ≢ pos 3) × (e ≡ OpenFault.Schema n))
        ⊎ ((n ≡ pos 3) × (is_packed ≡ false) × (e ≡ OpenFault.NotARegistry)))
        × IfErr found (λ f. e ≡ f)) }
{
    match found {
        Ok(3) => {
            if is_packed {
                Ok(())
            } else {
                Err(OpenFault::NotARegistry)
            }
        }
        Ok(found) => Err(OpenFault::Schema(found)),
        Err(fault) => Err(fault),
    }
}

/// Sees that the tables are of schema 3, and that one of them says which pack it is. Nothing is written,
/// whatever the database is. `Schema` names the one number that it says, if that is another; `NotARegistry`:
/// it says none, or has no such table.
pub fn take_up_pack<S: Alter>(conn: &mut Connection<S>) -> Result<(), OpenFault>
    ensures found { HasCleanDisk (state S.Store conn.new) → IsIdle (state S.Store conn.old)
        → (file : List ℕ) → IsPackRegistry file (state S.Store conn.old).now
        → OnOk result (StaysSettled (InPack file) (state S.Store conn.old) (state S.Store conn.new)) }
    ensures wanting { HasCleanDisk (state S.Store conn.new)
        → (file : List ℕ) → IsPackRegistry file (state S.Store conn.old).now → IfErr result IsWanting }
    ensures other { HasCleanDisk (state S.Store conn.new) → KnowsVersion (state S.Store conn.old).now.schema
        → (n : ℤ) → ShowsAlone (versions_in (state S.Store conn.old).now) n → n ≢ pos 3
        → IfErr result (IsWantingOr (OpenFault.Schema n)) }
    ensures asked { HasCleanDisk (state S.Store conn.new)
        → OnOk result (IsOfSchema (state S.Store conn.old) (pos 3)) }
    ensures packed { OnOk result (has_pack_table (state S.Store conn.old).now.schema ≡ true) }
    ensures same { HasCleanDisk (state S.Store conn.new)
        → OnOk result (IsUnchanged (state S.Store conn.old) (state S.Store conn.new)) }
    ensures unanswered { HasCleanDisk (state S.Store conn.new)
        → ((n : ℤ) → IsOfSchema (state S.Store conn.old) n → ⊥)
        → IfErr result (IsWantingOr OpenFault.NotARegistry) }
    ensures told { HasCleanDisk (state S.Store conn.new)
        → IfErr result (IsToldOther (state S.Store conn.old)) }
    ensures another { IfErr result NamesNotThree }
    ensures back { HasCleanDisk (state S.Store conn.new) → IsIdle (state S.Store conn.old)
        → OnErr result (IsBack (state S.Store conn.old) (state S.Store conn.new)) }
    ensures survives { LastsUncommitted S.Store conn.old conn.new }
{
    let is_packed = is_there(conn, b"registry_pack");
    only_three(read_version(conn), is_packed)
}

/// Which schema the tables are, by which a program chooses the layout: `None` where no table says it. Nothing
/// is written, whatever the database is. `NotARegistry`: there is the table, but it has not one row with a
/// whole number.
pub fn find_version<S: Alter>(conn: &mut Connection<S>) -> Result<Option<i64>, OpenFault>
    ensures unmarked { has_version_table (state S.Store conn.old).now.schema ≡ false
        → (result ≡ Ok None) × (conn.new ≡ conn.old) }
    ensures told { HasCleanDisk (state S.Store conn.new)
        → IfOk result
        (λ o. MatchOption o (has_version_table (state S.Store conn.old).now.schema ≡ false)
        (IsOfSchema (state S.Store conn.old))) }
    ensures two { HasCleanDisk (state S.Store conn.new) → HoldsRegistry (state S.Store conn.old).now
        → MatchResult result (λ o. o ≡ Some (pos 2)) IsWanting }
    ensures three { HasCleanDisk (state S.Store conn.new)
        → (file : List ℕ) → IsPackRegistry file (state S.Store conn.old).now
        → MatchResult result (λ o. o ≡ Some (pos 3)) IsWanting }
    ensures none { IfErr result (IsWantingOr OpenFault.NotARegistry) }
    ensures same { HasCleanDisk (state S.Store conn.new)
        → OnOk result
        ((conn.new ≡ conn.old) ⊎ IsUnchanged (state S.Store conn.old) (state S.Store conn.new)) }
    ensures left { LeavesEither S.Store conn.old conn.new }
    ensures unnumbered { IfErr result IsUnnumbered }
    ensures survives { LastsUncommitted S.Store conn.old conn.new }
{
    if !is_there(conn, b"registry_schema") {
        return Ok(None);
    }
    match read_version(conn) {
        Ok(version) => Ok(Some(version)),
        Err(fault) => Err(fault),
    }
}
