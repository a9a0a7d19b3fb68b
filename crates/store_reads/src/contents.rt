//! The bytes of contents that rows name.
ghost use Rattle.std.specs.Prelude.{◌≡◌, ◌++◌, [], map, false, Ok, Some, OnOk, IfOk, IsOkAnd};
ghost use Rattle.std.specs.List.{concat};
ghost use Rattle.sqlite.specs.Held.{state};
ghost use Rattle.store_statements.specs.World.{content_at};
ghost use Rattle.store_statements.specs.Held.{is_storage};
ghost use Rattle.store_statements.specs.Between.{Finds, Stays};
ghost use Rattle.store_statements.specs.Clauses.{Lasts};
ghost use Rattle.store_bytes.specs.Reading.{IsReadable, IsAsWas};

use oci_types::Fault;
use sqlite::{Alter, Connection};
use std::alloc::Global;
use store_bytes::Contents;
use store_contents::ContentId;

/// The bytes that were found. `Fault::Storage` where there are none.
fn present(found: Result<Option<Vec<u8>>, Fault>) -> Result<Vec<u8>, Fault>
    ensures value { IfOk result (λ bytes. found ≡ Ok (Some bytes)) }
    ensures storage { is_storage result ≡ false → is_storage found ≡ false }
{
    match found {
        Ok(Some(bytes)) => Ok(bytes),
        Ok(None) => Err(Fault::Storage),
        Err(fault) => Err(fault),
    }
}

/// The bytes of the content. `Fault::Storage` where there is no such content.
pub(crate) fn content<S: Alter, C: Contents>(
    alloc: Global,
    conn: &mut Connection<S>,
    contents: &mut C,
    id: ContentId,
) -> Result<Vec<u8>, Fault>
    ensures found { IsReadable C.Contents contents.old contents.new (state S.Store conn.old)
        → Finds S.Store (C.Contents.layout contents.old) conn.old conn.new result
        (λ t bytes. t.contents id.id ≡ Some bytes.items) }
    ensures settled { Stays S.Store (C.Contents.layout contents.old) conn.old conn.new result }
    ensures survives { Lasts S.Store conn.old conn.new }
    ensures same { IsAsWas C.Contents contents.old contents.new }
{
    present(contents.read(alloc, conn, id))
}

/// An empty buffer that holds `size` bytes without growing.
fn with_room(alloc: Global, size: u64) -> Result<Vec<u8>, Fault>
    ensures { IfOk result (λ bytes. bytes.items ≡ []) }
{
    match Vec::with_capacity(alloc, size as usize) {
        Ok(bytes) => Ok(bytes),
        Err(_) => Err(Fault::Memory),
    }
}

/// Puts the bytes that were found behind the others.
fn extend(bytes: &mut Vec<u8>, found: Result<Vec<u8>, Fault>) -> Result<(), Fault>
    ensures extended { OnOk result
        (IsOkAnd found (λ more. bytes.new.items ≡ bytes.old.items ++ more.items)) }
    ensures storage { is_storage result ≡ false → is_storage found ≡ false }
{
    match found {
        Ok(more) => match bytes.extend_from_slice(&more) {
            Ok(()) => Ok(()),
            Err(_) => Err(Fault::Memory),
        },
        Err(fault) => Err(fault),
    }
}

/// The bytes of the contents, one behind the other. `size` is how many they are.
pub(crate) fn joined<S: Alter, C: Contents>(
    alloc: Global,
    conn: &mut Connection<S>,
    contents: &mut C,
    ids: &[ContentId],
    size: u64,
) -> Result<Vec<u8>, Fault>
    ensures found { IsReadable C.Contents contents.old contents.new (state S.Store conn.old)
        → Finds S.Store (C.Contents.layout contents.old) conn.old conn.new result
        (λ t bytes. bytes.items ≡ concat (map (λ id. content_at t.contents id.id) ids.now)) }
    ensures settled { Stays S.Store (C.Contents.layout contents.old) conn.old conn.new result }
    ensures survives { Lasts S.Store conn.old conn.new }
    ensures same { IsAsWas C.Contents contents.old contents.new }
{
    let mut bytes = with_room(alloc, size)?;
    for id in ids {
        extend(&mut bytes, content(alloc, conn, contents, *id))?;
    }
    Ok(bytes)
}
