//! Whether a content in a pack has a digest, as its row says.
ghost use Rattle.std.specs.Prelude.{◌≡◌, ◌⊎◌, ℕ, List, IfOk, IfErr, OnOk, ⊤};
ghost use Rattle.std.specs.List.{list_any};
ghost use Rattle.sqlite.specs.State.{HasCleanDisk, IsUnchanged, IsRolledBack, Survives};
ghost use Rattle.sqlite.specs.Held.{state};
ghost use Rattle.store_contents.specs.Hashed.{shows_digits, has_hash};
ghost use Rattle.store_contents.specs.Layouts.{HoldsPack};
ghost use Rattle.store_contents.specs.Places.{HoldsPlaces, bytes_in};
ghost use Rattle.store_contents.specs.Read.{IsRead};

use crate::content_id::ContentId;
use crate::fault::fault_of;
use oci_types::Fault;
use sqlite::types::ValueRef;
use sqlite::{Alter, Connection, Error, Row, params};

/// Whether the row shows these digits.
fn shows(row: &Row, sha256: &str) -> bool
    ensures { result ≡ shows_digits sha256.now row.now }
{
    match row.get_ref(0) {
        Ok(ValueRef::Text(shown)) => shown == sha256.as_bytes(),
        _ => false,
    }
}

/// Whether one of the rows does.
fn any_shows(rows: &[Row], sha256: &str) -> bool
    ensures { result ≡ list_any (shows_digits sha256.now) rows.now }
{
    for row in rows {
        if shows(row, sha256) {
            return true;
        }
    }
    false
}

/// The same of what a query gave.
fn any_shown(shown: Result<Vec<Row>, Error>, sha256: &str) -> Result<bool, Fault>
    ensures { IsRead shown result (λ rows found. found ≡ list_any (shows_digits sha256.now) rows) }
{
    match shown {
        Ok(rows) => Ok(any_shows(&rows, sha256)),
        Err(error) => Err(fault_of(error)),
    }
}

/// As `is_hashed`, where the bytes of contents are in a pack: by what the row says, which is so of the bytes
/// of every file in which what is kept true holds. Neither the pack is read nor another row.
pub fn is_hashed_in_pack<S: Alter>(
    conn: &mut Connection<S>,
    id: ContentId,
    sha256: &str,
) -> Result<bool, Fault>
    ensures found { (file : List ℕ) → HasCleanDisk (state S.Store conn.new)
        → HoldsPack file (state S.Store conn.old).now
        → IfOk result (λ is. is ≡ has_hash (bytes_in (state S.Store conn.old).now file id.id) sha256.now) }
    ensures same { HasCleanDisk (state S.Store conn.new) → HoldsPlaces (state S.Store conn.old).now
        → OnOk result (IsUnchanged (state S.Store conn.old) (state S.Store conn.new)) }
    ensures failed { HasCleanDisk (state S.Store conn.new) → HoldsPlaces (state S.Store conn.old).now
        → IfErr result
        (λ _. IsUnchanged (state S.Store conn.old) (state S.Store conn.new) ⊎ IsRolledBack
        (state S.Store conn.old) (state S.Store conn.new)) }
    ensures survives { (HasCleanDisk (state S.Store conn.old) → HoldsPlaces (state S.Store conn.old).now)
        → Survives (state S.Store conn.old) (state S.Store conn.new) (λ _. ⊥) }
    ensures lasts { Survives (state S.Store conn.old) (state S.Store conn.new) (λ _. ⊤) }
{
    let shown = conn.query_all(
        "SELECT sha256 FROM registry_contents WHERE id = ?1",
        params![id.get()],
    );
    any_shown(shown, sha256)
}
