//! Who may do what.
ghost use Rattle.std.specs.Prelude.{◌≡◌};
ghost use Rattle.registry_model.specs.World.{is_known, level_at};
ghost use Rattle.store_contents.specs.Layouts.{Layout};
ghost use Rattle.store_statements.specs.Between.{Stays, Tells};
ghost use Rattle.store_statements.specs.Clauses.{Lasts};

use oci_types::{Fault, RepoName, Token};
use registry_model::Level;
use sqlite::{Alter, Connection};
use store_statements::grants::{find_level, is_known};

/// Whether the token has a grant.
pub fn known<S: Alter>(conn: &mut Connection<S>, token: &Token) -> Result<bool, Fault>
    ensures found { (l : Layout)
        → Tells S.Store l conn.old conn.new result (λ w v. v ≡ is_known (w.grants token.now)) }
    ensures settled { (l : Layout) → Stays S.Store l conn.old conn.new result }
    ensures survives { Lasts S.Store conn.old conn.new }
{
    is_known(conn, token.as_str())
}

/// The level of a token on a repository, where it has one.
pub fn level<S: Alter>(
    conn: &mut Connection<S>,
    token: &Token,
    repo: &RepoName,
) -> Result<Option<Level>, Fault>
    ensures found { (l : Layout)
        → Tells S.Store l conn.old conn.new result (λ w v. v ≡ level_at w token.now repo.now) }
    ensures settled { (l : Layout) → Stays S.Store l conn.old conn.new result }
    ensures survives { Lasts S.Store conn.old conn.new }
{
    find_level(conn, token.as_str(), repo.as_str())
}
