//! The opening of a registry as what it is.
ghost use Rattle.std.specs.Prelude.{◌≡◌, pos, true, false, None, Some, IfOk, IfErr, ⊤};
ghost use Rattle.sqlite.specs.State.{HasCleanDisk, Survives};
ghost use Rattle.sqlite.specs.Held.{state};
ghost use Rattle.registry_model.specs.World.{no_world};
ghost use Rattle.store_contents.specs.Layouts.{InPack};
ghost use Rattle.store_opening.specs.Opening.{IsIdle};
ghost use Rattle.store_schema.specs.Making.{IsEmptyWith};
ghost use Rattle.store_schema.specs.Schema.{no_schema};
ghost use Rattle.store_statements.specs.Held.{IsBack, world_in};
ghost use Rattle.pack_opening.specs.Making.{IsPackRegistry};
ghost use Rattle.layout_opening.specs.Opening.{IsInPack, IsOpenedAs, IsOursBeside, layout_in};

use crate::beside::{make_beside, take_up_beside};
use crate::fault::LayoutFault;
use crate::pack_file::PackFile;
use crate::tables::{LayoutStore, take_up_tables};
use pack_opening::{find_version, is_bare};
use registry_store::OpenFault;
use sqlite::{Alter, Connection};
use sqlite_disk::Disk;
use std::alloc::Global;

/// What is done with a database.
#[derive(Clone, Copy)]
enum Kind {
    /// It is opened as a registry whose contents are in its tables, or made one.
    Tables,
    /// It is opened as one whose contents are in a pack.
    Beside,
    /// It is made such a one.
    NewBeside,
}

/// What is done with a database whose tables say this schema, or none.
fn kind_of(version: Option<i64>, is_new_beside: bool) -> Kind
    ensures beside { result ≡ Kind.Beside → version ≡ Some (pos 3) }
    ensures begun { result ≡ Kind.NewBeside → (version ≡ None) × (is_new_beside ≡ true) }
    ensures tables { result ≡ Kind.Tables
        → (version ≡ Some (pos 3) → ⊥) × (version ≡ None → is_new_beside ≡ false) }
{
    match version {
        Some(3) => Kind::Beside,
        None => {
            if is_new_beside {
                Kind::NewBeside
            } else {
                Kind::Tables
            }
        }
        Some(_) => Kind::Tables,
    }
}

/// Opens a registry whose contents are in a pack. Tables of schema 3 that name no pack are of a schema that
/// is not known.
fn open_beside<S: Alter, D: Disk + Drop, P: PackFile<D>>(
    alloc: Global,
    conn: Connection<S>,
    packs: &mut P,
) -> Result<LayoutStore<S, D>, (LayoutFault<P::Refused>, Connection<S>)>
    requires ours { HasCleanDisk (state S.Store conn) → IsIdle (state S.Store conn)
        × IsPackRegistry (P.bytes packs.old) (state S.Store conn).now }
    ensures layout { IfOk result (λ s. layout_in s.contents ≡ InPack (P.bytes packs.old)) }
    ensures found { IfOk result
        (λ s. HasCleanDisk (state S.Store s.conn)
        → (state S.Store s.conn).now ≡ (state S.Store conn).now) }
    ensures unspent { IfOk result (λ s. s.spent ≡ false) }
    ensures survives { IfOk result (λ s. Survives (state S.Store conn) (state S.Store s.conn) (λ _. ⊤)) }
{
    if conn.schema().table_named(b"registry_pack").is_none() {
        return Err((LayoutFault::Tables(OpenFault::Schema(3)), conn));
    }
    match packs.find() {
        Ok(disk) => take_up_beside(alloc, conn, disk),
        Err(refused) => Err((LayoutFault::File(refused), conn)),
    }
}

/// Makes a registry whose contents are in a pack, in an empty database. `NotARegistry`: it is not empty, and
/// then no file is made.
fn begin_beside<S: Alter, D: Disk + Drop, P: PackFile<D>>(
    alloc: Global,
    conn: Connection<S>,
    packs: &mut P,
) -> Result<LayoutStore<S, D>, (LayoutFault<P::Refused>, Connection<S>)>
    requires ours { HasCleanDisk (state S.Store conn) → IsIdle (state S.Store conn)
        × IsEmptyWith no_schema (state S.Store conn).now }
    ensures layout { IfOk result (λ s. IsInPack (layout_in s.contents)) }
    ensures made { IfOk result
        (λ s. HasCleanDisk (state S.Store s.conn)
        → world_in (layout_in s.contents) (state S.Store s.conn) ≡ no_world) }
    ensures unspent { IfOk result (λ s. s.spent ≡ false) }
    ensures survives { IfOk result (λ s. Survives (state S.Store conn) (state S.Store s.conn) (λ _. ⊤)) }
    ensures refused { IfErr result
        (λ e. HasCleanDisk (state S.Store e.1) → IsIdle (state S.Store conn)
        → IsBack (state S.Store conn) (state S.Store e.1)) }
{
    if !is_bare(&conn) {
        return Err((LayoutFault::Tables(OpenFault::NotARegistry), conn));
    }
    let mark = match packs.draw_mark() {
        Ok(mark) => mark,
        Err(refused) => return Err((LayoutFault::File(refused), conn)),
    };
    match packs.create() {
        Ok(disk) => make_beside(alloc, conn, disk, mark),
        Err(refused) => Err((LayoutFault::File(refused), conn)),
    }
}

/// The registry in a database, as what it is: whose contents are in its tables, or in the pack that `packs`
/// finds. In an empty database one is made, whose contents are in a new pack where `is_new_beside`, else in
/// its tables. That the database is empty or a registry's is for the caller to know.
///
/// A refusal hands the connection back, with the tables as they were where it is open still. `Tables`: as
/// `Store::adopt` has it, for a schema that is neither 2 nor 3, or is 3 and names no pack; a new pack is made
/// for no database that has a table. `File`: the file of contents is not found, or not made. `Pack`: it is
/// not the one that the rows name, of another age, or shorter than they say.
pub fn open_layout<S: Alter, D: Disk + Drop, P: PackFile<D>>(
    alloc: Global,
    mut conn: Connection<S>,
    is_new_beside: bool,
    packs: &mut P,
) -> Result<LayoutStore<S, D>, (LayoutFault<P::Refused>, Connection<S>)>
    requires ours { HasCleanDisk (state S.Store conn) → IsIdle (state S.Store conn)
        × IsOursBeside (P.bytes packs.old) (state S.Store conn).now }
    ensures opened { IfOk result
        (λ s. HasCleanDisk (state S.Store s.conn)
        → IsOpenedAs (P.bytes packs.old) is_new_beside (state S.Store conn).now
        (layout_in s.contents) (state S.Store s.conn).now) }
    ensures unspent { IfOk result (λ s. s.spent ≡ false) }
    ensures survives { IfOk result (λ s. Survives (state S.Store conn) (state S.Store s.conn) (λ _. ⊤)) }
{
    let version = match find_version(&mut conn) {
        Ok(version) => version,
        Err(fault) => return Err((LayoutFault::Tables(fault), conn)),
    };
    match kind_of(version, is_new_beside) {
        Kind::Beside => open_beside(alloc, conn, packs),
        Kind::NewBeside => begin_beside(alloc, conn, packs),
        Kind::Tables => match take_up_tables(alloc, conn) {
            Ok(store) => Ok(store),
            Err((fault, conn)) => Err((LayoutFault::Tables(fault), conn)),
        },
    }
}
