//! The level of a token on a repository is given and taken away, and every level of one.
ghost use Rattle.std.specs.Prelude.{◌≡◌, true};
ghost use Rattle.registry_model.specs.World.{has_repo};
ghost use Rattle.registry_model.specs.Command.{grant, revoke, revoke_all};
ghost use Rattle.store_contents.specs.Layouts.{Layout};
ghost use Rattle.store_statements.specs.Between.{CrashLeaves, GoesBack, MakesWorld, Relates, StaysOnMemory};
ghost use Rattle.store_statements.specs.Clauses.{KeepsInside, Lasts, LastsUncommitted, StepsInside, WorldHas};
ghost use Rattle.store_statements.specs.PlaceChanges.{KeepsPlaces};
ghost use Rattle.store_writes.specs.Puts.{LevelIsPut};

use crate::change::Change;
use crate::changing::make;
use oci_types::{Fault, RepoName, Token};
use registry_model::Level;
use sqlite::{Alter, Connection, Transaction};
use store_statements::grants::{add_grant, set_level};

/// Takes the level of a token on a repository away.
pub fn revoke<S: Alter>(
    conn: &mut Connection<S>,
    token: &Token,
    name: &RepoName,
) -> Result<(), Fault>
    ensures made { (l : Layout)
        → MakesWorld S.Store l conn.old conn.new result (λ w. revoke w token.now name.now) }
    ensures stays { (l : Layout)
        → Relates S.Store l conn.old conn.new result (λ t u. u.contents ≡ t.contents) }
    ensures places { (l : Layout) → Relates S.Store l conn.old conn.new result KeepsPlaces }
    ensures memory { (l : Layout) → StaysOnMemory S.Store l conn.old conn.new result }
    ensures back { (l : Layout) → GoesBack S.Store l conn.old conn.new result }
    ensures crash { (l : Layout)
        → CrashLeaves S.Store l conn.old conn.new result (λ w. revoke w token.now name.now) }
    ensures survives { Lasts S.Store conn.old conn.new }
{
    make(
        conn,
        Change::TakeLevel {
            token: token.as_str(),
            repo: name.as_str(),
        },
    )
}

/// Takes every level of a token away.
pub fn revoke_all<S: Alter>(conn: &mut Connection<S>, token: &Token) -> Result<(), Fault>
    ensures made { (l : Layout)
        → MakesWorld S.Store l conn.old conn.new result (λ w. revoke_all w token.now) }
    ensures stays { (l : Layout)
        → Relates S.Store l conn.old conn.new result (λ t u. u.contents ≡ t.contents) }
    ensures places { (l : Layout) → Relates S.Store l conn.old conn.new result KeepsPlaces }
    ensures memory { (l : Layout) → StaysOnMemory S.Store l conn.old conn.new result }
    ensures back { (l : Layout) → GoesBack S.Store l conn.old conn.new result }
    ensures crash { (l : Layout)
        → CrashLeaves S.Store l conn.old conn.new result (λ w. revoke_all w token.now) }
    ensures survives { Lasts S.Store conn.old conn.new }
{
    make(
        conn,
        Change::TakeLevels {
            token: token.as_str(),
        },
    )
}

/// Sets the level, where there is a grant, and else adds one.
pub(crate) fn put_level<S: Alter>(
    tx: &mut Transaction<'_, S>,
    token: &str,
    repo: &str,
    level: Level,
) -> Result<(), Fault>
    ensures put { (l : Layout) → StepsInside S.Store l tx.old.conn.now tx.new.conn.now result
        (λ t u. LevelIsPut t u token.now repo.now level) }
    ensures kept { (l : Layout) → KeepsInside S.Store l tx.old.conn.now tx.new.conn.now }
    ensures same_reference { tx.new.conn.ghost_name ≡ tx.old.conn.ghost_name }
    ensures survives { LastsUncommitted S.Store tx.old.conn.now tx.new.conn.now }
{
    let count = set_level(tx, token, repo, level)?;
    if count == 0 {
        add_grant(tx, token, repo, level)
    } else {
        Ok(())
    }
}

/// Gives a token a level on a repository, in the place of the one that it has.
pub fn grant<S: Alter>(
    conn: &mut Connection<S>,
    token: &Token,
    name: &RepoName,
    level: Level,
) -> Result<(), Fault>
    ensures made { (l : Layout) → WorldHas S.Store l conn.old (λ w. has_repo w name.now ≡ true)
        → MakesWorld S.Store l conn.old conn.new result (λ w. grant w token.now name.now level) }
    ensures stays { (l : Layout)
        → Relates S.Store l conn.old conn.new result (λ t u. u.contents ≡ t.contents) }
    ensures places { (l : Layout) → Relates S.Store l conn.old conn.new result KeepsPlaces }
    ensures memory { (l : Layout) → StaysOnMemory S.Store l conn.old conn.new result }
    ensures back { (l : Layout) → GoesBack S.Store l conn.old conn.new result }
    ensures crash { (l : Layout) → WorldHas S.Store l conn.old (λ w. has_repo w name.now ≡ true)
        → CrashLeaves S.Store l conn.old conn.new result
        (λ w. grant w token.now name.now level) }
    ensures survives { Lasts S.Store conn.old conn.new }
{
    make(
        conn,
        Change::SetLevel {
            token: token.as_str(),
            repo: name.as_str(),
            level,
        },
    )
}
