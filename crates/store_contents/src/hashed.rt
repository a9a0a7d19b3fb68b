//! Whether a content has a digest, without its bytes.
ghost use Rattle.std.specs.Prelude.{◌≡◌, ◌⊎◌, IfOk, IfErr, OnOk, ⊤};
ghost use Rattle.std.specs.List.{list_any};
ghost use Rattle.sqlite.specs.State.{HasCleanDisk, IsUnchanged, IsRolledBack, Survives};
ghost use Rattle.sqlite.specs.Held.{state};
ghost use Rattle.store_contents.specs.Contents.{HoldsContents, bytes_in};
ghost use Rattle.store_contents.specs.Hashed.{shows_id, has_hash};
ghost use Rattle.store_contents.specs.Read.{IsRead};

use crate::content_id::ContentId;
use crate::fault::{fault_of, told};
use oci_types::Fault;
use sqlite::{Alter, Connection, Error, Row, params};

/// Whether one of the rows shows the id.
fn show_id(rows: &[Row], id: i64) -> Result<bool, Error>
    ensures { IfOk result (λ found. found ≡ list_any (shows_id id) rows.now) }
{
    for row in rows {
        let shown: i64 = row.get(0)?;
        if shown == id {
            return Ok(true);
        }
    }
    Ok(false)
}

/// The same of what a query gave.
fn any_shown(shown: Result<Vec<Row>, Error>, id: ContentId) -> Result<bool, Fault>
    ensures { IsRead shown result (λ rows found. found ≡ list_any (shows_id id.id) rows) }
{
    match shown {
        Ok(rows) => told(show_id(&rows, id.get())),
        Err(error) => Err(fault_of(error)),
    }
}

/// Whether the bytes of the content have the SHA-256 of these 64 lower-case hexadecimal digits; `false` also
/// where there is no such content. No bytes are read. Nothing changes; a fault leaves the tables as they
/// were, or as the last commit left them.
pub fn is_hashed<S: Alter>(
    conn: &mut Connection<S>,
    id: ContentId,
    sha256: &str,
) -> Result<bool, Fault>
    ensures found { HasCleanDisk (state S.Store conn.new) → HoldsContents (state S.Store conn.old).now
        → IfOk result (λ is. is ≡ has_hash (bytes_in (state S.Store conn.old).now id.id) sha256.now) }
    ensures same { HasCleanDisk (state S.Store conn.new) → HoldsContents (state S.Store conn.old).now
        → OnOk result (IsUnchanged (state S.Store conn.old) (state S.Store conn.new)) }
    ensures failed { HasCleanDisk (state S.Store conn.new) → HoldsContents (state S.Store conn.old).now
        → IfErr result
        (λ _. IsUnchanged (state S.Store conn.old) (state S.Store conn.new) ⊎ IsRolledBack
        (state S.Store conn.old) (state S.Store conn.new)) }
    ensures survives { (HasCleanDisk (state S.Store conn.old) → HoldsContents (state S.Store conn.old).now)
        → Survives (state S.Store conn.old) (state S.Store conn.new) (λ _. ⊥) }
    ensures lasts { Survives (state S.Store conn.old) (state S.Store conn.new) (λ _. ⊤) }
{
    // the index has both columns, so no content is read
    let shown = conn.query_all(
        "SELECT id FROM registry_contents WHERE sha256 = ?1",
        params![sha256],
    );
    any_shown(shown, id)
}
