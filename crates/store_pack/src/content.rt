//! The bytes of a content, read from the pack.
ghost use Rattle.std.specs.Prelude.{◌≡◌, ◌<◌, List, length, option_map, IsTrue, IfOk};
ghost use Rattle.sqlite.specs.State.{HasCleanDisk};
ghost use Rattle.sqlite.specs.Held.{state};
ghost use Rattle.registry_pack.specs.Extents.{AreWithin, bytes_at};
ghost use Rattle.registry_pack.specs.Pack.{file_of, KeepsSpace};
ghost use Rattle.registry_pack.specs.Standing.{KeepsAll};
ghost use Rattle.store_statements.specs.Clauses.{Lasts};
ghost use Rattle.store_contents.specs.Layouts.{InPack, contents_in};
ghost use Rattle.store_contents.specs.Places.{HoldsPlaces, place_rows, runs_of};
ghost use Rattle.store_pack.specs.Content.{HasMoreOf};
ghost use Rattle.store_pack.specs.Opening.{AreThere};
ghost use Rattle.store_pack.specs.Reads.{ChangesNothing, Keeps, LastsUnchanged, StaysSettled};

use crate::reading::extents_of;
use oci_types::Fault;
use registry_pack::{Extent, Pack};
use sqlite::{Alter, Connection};
use sqlite_disk::Disk;
use std::alloc::Global;
use store_contents::ContentId;

/// How many bytes are read at a time.
const PIECE: usize = 65_536;

/// Puts one piece more of the bytes at the extents behind those that were read before, and says how many they
/// are: none where all have been read. `piece` is room for them.
fn read_more<D: Disk>(
    pack: &mut Pack<D>,
    extents: &[Extent],
    piece: &mut [u8],
    bytes: &mut Vec<u8>,
) -> Result<usize, Fault>
    requires usable { IsTrue (D.Disk.is_usable (file_of pack.old)) }
    requires room { 0 < length piece.old }
    ensures more { IfOk result (HasMoreOf (IsTrue (D.Disk.is_clean (file_of pack.new)))
        (D.Disk.seen (file_of pack.old)) extents.now bytes.old.items bytes.new.items) }
    ensures pack { KeepsAll D.Disk (file_of pack.old) (file_of pack.new) }
    ensures usable { IsTrue (D.Disk.is_usable (file_of pack.new)) }
    ensures space { KeepsSpace pack.old pack.new }
{
    let Ok(n) = pack.read_piece(extents, bytes.len(), piece) else {
        return Err(Fault::Storage);
    };
    match bytes.extend_from_slice(&piece[..n]) {
        Ok(()) => Ok(n),
        Err(_) => Err(Fault::Memory),
    }
}

/// The bytes at the extents, one behind the other, read as many at a time as there is room for.
fn read_pieces<D: Disk>(
    alloc: Global,
    pack: &mut Pack<D>,
    extents: &[Extent],
    piece: &mut [u8],
) -> Result<Vec<u8>, Fault>
    requires usable { IsTrue (D.Disk.is_usable (file_of pack.old)) }
    requires room { 0 < length piece.old }
    ensures read { IfOk result (λ bytes. IsTrue (D.Disk.is_clean (file_of pack.new))
        → AreWithin (D.Disk.seen (file_of pack.old)) extents.now
        → bytes.items ≡ bytes_at (D.Disk.seen (file_of pack.old)) extents.now) }
    ensures pack { KeepsAll D.Disk (file_of pack.old) (file_of pack.new) }
    ensures usable { IsTrue (D.Disk.is_usable (file_of pack.new)) }
    ensures space { KeepsSpace pack.old pack.new }
{
    let mut bytes = Vec::new(alloc);
    'pieces: loop {
        let n = read_more(pack, extents, piece, &mut bytes)?;
        if n == 0 {
            return Ok(bytes);
        }
    }
}

/// The same bytes, read in pieces of 65,536 bytes.
fn read_extents<D: Disk>(
    alloc: Global,
    pack: &mut Pack<D>,
    extents: &[Extent],
) -> Result<Vec<u8>, Fault>
    requires usable { IsTrue (D.Disk.is_usable (file_of pack.old)) }
    ensures read { IfOk result (λ bytes. IsTrue (D.Disk.is_clean (file_of pack.new))
        → AreWithin (D.Disk.seen (file_of pack.old)) extents.now
        → bytes.items ≡ bytes_at (D.Disk.seen (file_of pack.old)) extents.now) }
    ensures pack { KeepsAll D.Disk (file_of pack.old) (file_of pack.new) }
    ensures usable { IsTrue (D.Disk.is_usable (file_of pack.new)) }
    ensures space { KeepsSpace pack.old pack.new }
{
    let mut piece = [0; PIECE];
    read_pieces(alloc, pack, extents, &mut piece)
}

/// The bytes of the content, or `None` where there is no such content. They are read in pieces of 65,536
/// bytes. Nothing changes. The file is not asked for its length: that it is as long as the rows say is known
/// of a pack that was opened by them, and a read that finds fewer bytes is `Fault::Storage`.
///
/// After `Fault::Memory` connection and pack may be used again; after `Fault::Storage` the connection may
/// have been shut.
pub fn read_content<S: Alter, D: Disk>(
    alloc: Global,
    conn: &mut Connection<S>,
    pack: &mut Pack<D>,
    id: ContentId,
) -> Result<Option<Vec<u8>>, Fault>
    requires usable { IsTrue (D.Disk.is_usable (file_of pack.old)) }
    ensures found { HasCleanDisk (state S.Store conn.new) → IsTrue (D.Disk.is_clean (file_of pack.new))
        → HoldsPlaces (state S.Store conn.old).now
        → AreThere (D.Disk.seen (file_of pack.old)) (runs_of (place_rows (state S.Store conn.old).now))
        → IfOk result (λ o. option_map (λ bytes. bytes.items) o
        ≡ contents_in (InPack (D.Disk.seen (file_of pack.old))) (state S.Store conn.old).now id.id) }
    ensures same { ChangesNothing S.Store conn.old conn.new result }
    ensures settled { StaysSettled S.Store conn.old conn.new result }
    ensures kept { Keeps S.Store conn.old conn.new }
    ensures survives { LastsUnchanged S.Store conn.old conn.new }
    ensures lasts { Lasts S.Store conn.old conn.new }
    ensures pack { KeepsAll D.Disk (file_of pack.old) (file_of pack.new) }
    ensures usable { IsTrue (D.Disk.is_usable (file_of pack.new)) }
    ensures space { KeepsSpace pack.old pack.new }
{
    let Some(extents) = extents_of(alloc, conn, id)? else {
        return Ok(None);
    };
    let bytes = read_extents(alloc, pack, &extents)?;
    Ok(Some(bytes))
}
