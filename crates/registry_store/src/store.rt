//! A registry's world in the tables of a database, with the bytes of its contents there or in a pack.
ghost use Rattle.std.specs.Prelude.{◌≡◌, ◌≢◌, ℤ, pos, true, false, Ok, IfOk, IfErr, ⊤};
ghost use Rattle.sqlite.specs.State.{HasCleanDisk, Survives};
ghost use Rattle.sqlite.specs.Held.{state};
ghost use Rattle.sqlite.specs.Steps.{over_memory};
ghost use Rattle.sqlite.specs.Files.{file_state};
ghost use Rattle.sqlite.specs.WalFiles.{image_at};
ghost use Rattle.store_contents.specs.Layouts.{InTables};
ghost use Rattle.store_schema.specs.Schema.{no_schema};
ghost use Rattle.store_schema.specs.Making.{IsEmptyWith};
ghost use Rattle.store_schema.specs.Beside.{AreFree, registry_names};
ghost use Rattle.registry_model.specs.World.{no_world};
ghost use Rattle.store_statements.specs.Held.{IsSettled, IsBack, HoldsTables, world_in};
ghost use Rattle.store_opening.specs.Opening.{IsIdle, IsOpenedBeside, HoldsRegistry, SaysTwo, versions_in, has_version_table};
ghost use Rattle.store_opening.specs.Asking.{IsWanting, IsWantingOr, IsTold, IsOfSchema, NamesNotTwo, ShowsAlone};
ghost use Rattle.registry_store.specs.Opening.{IsOurs, OpensOn};

use crate::known_usages::KnownUsages;
use crate::origin::{Origin, Ours};
use crate::written::Written;
use sqlite::{Alter, Connection, Error, FileFrom, FileStore, MemStore};
use sqlite_disk::Disk;
use std::alloc::Global;
use std::marker::{Model, PhantomData};
use store_bytes::{Contents, TableContents};
use store_opening::{OpenFault, fault_in_opening, let_go, take_up};

/// Keeps a registry's world in the tables of a database, the bytes of contents where `C` keeps them, and
/// knows besides what some of its repositories hold. Once the storage has failed it is spent, and answers
/// `Fault::Storage` alone.
#[derive(Drop)]
pub struct Store<S: Alter, O: Origin = Ours, C: Contents = TableContents> {
    pub(crate) alloc: Global,
    pub(crate) conn: Connection<S>,
    pub(crate) contents: C,
    pub(crate) spent: bool,
    pub(crate) known: KnownUsages,
    pub(crate) origin: PhantomData<O>,
}

impl<S: Alter, O: Origin, C: Contents> Model for Store<S, O, C> {
    ghost use Rattle.std.specs.Prelude.{◌≡◌, true, false};
    ghost use Rattle.registry_store.specs.Kept.{IsClean, IsInOrder, Kept, kept_code, world_at};
    ghost use Rattle.registry_store.specs.Usages.{Knows};

    ghost Value = { Kept S C };

    ghost coded = { kept_code S.code C.code };

    ghost view = { λ s. record { conn = s.conn; contents = s.contents; spent = s.spent } };

    ghost invariant = { λ s. s.spent ≡ false → O.is_ours ≡ true
        → IsClean S.Store C.Contents (s.conn, s.contents)
        → IsInOrder S.Store C.Contents (s.conn, s.contents)
        × Knows s.known (world_at S.Store C.Contents (s.conn, s.contents)) };
}

impl Store<MemStore> {
    /// A registry in memory, without repositories and grants. Its refusal is want of memory or a failure.
    pub fn memory(alloc: Global) -> Result<Store<MemStore>, OpenFault>
        ensures empty { IfOk result (λ s. world_in InTables (state over_memory s.conn) ≡ no_world) }
        ensures unspent { IfOk result (λ s. s.spent ≡ false) }
        ensures wanting { IfErr result IsWanting }
    {
        let Ok(conn) = Connection::open_in_memory(alloc) else {
            return Err(OpenFault::Memory);
        };
        match Store::adopt(alloc, conn) {
            Ok(store) => Ok(store),
            Err((fault, _)) => Err(fault),
        }
    }
}

impl<S: Alter, O: Origin> Store<S, O> {
    /// The registry in the tables of a database, whatever it is: they are made where there are none. Where
    /// its origin is `Ours`, that it is so is for the caller to know; of any other nothing is promised of the
    /// store that comes of it, but what is said here. A refusal hands the connection back, with the tables
    /// as they were where it is open still and nothing was uncommitted: `Schema` where they are of another
    /// schema than 2, `NotARegistry` where a name is taken by what is none of a registry's, or the schema is
    /// not said once. An empty database is refused with neither.
    pub fn adopt(
        alloc: Global,
        mut conn: Connection<S>,
    ) -> Result<Store<S, O>, (OpenFault, Connection<S>)>
        requires ours { O.is_ours ≡ true → HasCleanDisk (state S.Store conn)
            → IsIdle (state S.Store conn) × IsOurs (state S.Store conn).now }
        ensures made { IfOk result
            (λ s. HasCleanDisk (state S.Store s.conn) → IsEmptyWith no_schema (state S.Store conn).now
            → world_in InTables (state S.Store s.conn) ≡ no_world) }
        ensures found { IfOk result
            (λ s. HasCleanDisk (state S.Store s.conn) → IsIdle (state S.Store conn)
            → HoldsRegistry (state S.Store conn).now
            → (state S.Store s.conn).now ≡ (state S.Store conn).now) }
        ensures beside { IfOk result
            (λ s. HasCleanDisk (state S.Store s.conn)
            → has_version_table (state S.Store conn).now.schema ≡ false
            → AreFree (state S.Store conn).now.schema registry_names
            × IsOpenedBeside (state S.Store conn).now (state S.Store s.conn)) }
        ensures asked { IfOk result
            (λ s. HasCleanDisk (state S.Store s.conn)
            → has_version_table (state S.Store conn).now.schema ≡ true
            → IsOfSchema (state S.Store conn) (pos 2)) }
        ensures two { IfOk result
            (λ s. HasCleanDisk (state S.Store s.conn) → HoldsTables InTables (state S.Store conn).now
            → SaysTwo (state S.Store conn).now) }
        ensures unspent { IfOk result (λ s. s.spent ≡ false) }
        ensures survives { IfOk result (λ s. Survives (state S.Store conn) (state S.Store s.conn) (λ _. ⊤)) }
        ensures told { IfErr result
            (λ e. HasCleanDisk (state S.Store e.1) → IsTold (state S.Store conn) e.0) }
        ensures another { IfErr result (λ e. NamesNotTwo e.0) }
        ensures refused { IfErr result
            (λ e. HasCleanDisk (state S.Store e.1) → IsIdle (state S.Store conn)
            → IsBack (state S.Store conn) (state S.Store e.1)) }
        ensures unmade { IfErr result
            (λ e. HasCleanDisk (state S.Store e.1) → IsEmptyWith no_schema (state S.Store conn).now
            → IsWanting e.0) }
        ensures wanting { IfErr result
            (λ e. HasCleanDisk (state S.Store e.1) → HoldsRegistry (state S.Store conn).now
            → IsWanting e.0) }
        ensures other { IfErr result
            (λ e. HasCleanDisk (state S.Store e.1) → HoldsTables InTables (state S.Store conn).now
            → (n : ℤ) → ShowsAlone (versions_in (state S.Store conn).now) n → n ≢ pos 2
            → IsWantingOr (OpenFault.Schema n) e.0) }
        ensures unsaid { IfErr result
            (λ e. HasCleanDisk (state S.Store e.1) → HoldsTables InTables (state S.Store conn).now
            → ((n : ℤ) → ShowsAlone (versions_in (state S.Store conn).now) n → ⊥)
            → IsWantingOr OpenFault.NotARegistry e.0) }
        ensures unmarked { IfErr result
            (λ e. has_version_table (state S.Store conn).now.schema ≡ false
            → IsWantingOr OpenFault.NotARegistry e.0) }
        ensures unanswered { IfErr result
            (λ e. HasCleanDisk (state S.Store e.1)
            → ((n : ℤ) → IsOfSchema (state S.Store conn) n → ⊥)
            → IsWantingOr OpenFault.NotARegistry e.0) }
    {
        match take_up(&mut conn) {
            Ok(()) => Ok(Store {
                alloc,
                conn,
                contents: TableContents,
                spent: false,
                known: KnownUsages::new(alloc),
                origin: PhantomData,
            }),
            Err(fault) => Err((fault, conn)),
        }
    }

    /// Gives the database back, with the tables as they are.
    pub fn into_connection(self) -> Connection<S>
        ensures same { result ≡ self.conn }
        ensures settled { self.spent ≡ false → O.is_ours ≡ true → HasCleanDisk (state S.Store result)
            → IsSettled InTables (state S.Store result) }
    {
        self.conn
    }
}

impl<S: Alter, O: Origin, C: Contents> Store<S, O, C> {
    ghost use Rattle.registry_store.specs.Kept.{IsClean, IsInOrder};

    /// The registry in the tables of a database, whose bytes are where `contents` has them. Nothing is read:
    /// where its origin is `Ours`, that both are in order is for the caller to know.
    pub fn over(alloc: Global, conn: Connection<S>, contents: C) -> Store<S, O, C>
        requires ours { O.is_ours ≡ true → IsClean S.Store C.Contents (conn, contents)
            → IsInOrder S.Store C.Contents (conn, contents) }
        ensures conn { result.conn ≡ conn }
        ensures contents { result.contents ≡ contents }
        ensures unspent { result.spent ≡ false }
    {
        Store {
            alloc,
            conn,
            contents,
            spent: false,
            known: KnownUsages::new(alloc),
            origin: PhantomData,
        }
    }

    /// Gives both back, as they are.
    pub fn into_parts(self) -> (Connection<S>, C)
        ensures same { result ≡ (self.conn, self.contents) }
        ensures ordered { self.spent ≡ false → O.is_ours ≡ true → IsClean S.Store C.Contents result
            → IsInOrder S.Store C.Contents result }
    {
        (self.conn, self.contents)
    }
}

impl<D: Disk + Drop> Store<FileStore<D>> {
    /// As `adopt`, but a refusal closes the files.
    fn adopt_or_close(
        alloc: Global,
        conn: Connection<FileStore<D>>,
    ) -> Result<Store<FileStore<D>>, OpenFault>
        requires ours { HasCleanDisk (file_state conn)
            → IsIdle (file_state conn) × IsOurs (file_state conn).now }
        ensures made { IfOk result
            (λ s. HasCleanDisk (file_state s.conn) → IsEmptyWith no_schema (file_state conn).now
            → world_in InTables (file_state s.conn) ≡ no_world) }
        ensures found { IfOk result
            (λ s. HasCleanDisk (file_state s.conn) → IsIdle (file_state conn)
            → HoldsRegistry (file_state conn).now
            → (file_state s.conn).now ≡ (file_state conn).now) }
        ensures unspent { IfOk result (λ s. s.spent ≡ false) }
        ensures survives { IfOk result (λ s. Survives (file_state conn) (file_state s.conn) (λ _. ⊤)) }
        ensures another { IfErr result NamesNotTwo }
    {
        match Store::adopt(alloc, conn) {
            Ok(opened) => Ok(opened),
            Err((fault, conn)) => {
                let_go(conn);
                Err(fault)
            }
        }
    }
}

/// A connection that was opened, or why it was not; what is left of its files is let go.
fn or_fault<C, L: Drop>(opened: Result<C, (Error, L)>) -> Result<C, OpenFault>
    ensures same { IfOk result (λ conn. opened ≡ Ok conn) }
    ensures another { IfErr result NamesNotTwo }
{
    match opened {
        Ok(conn) => Ok(conn),
        Err((error, _)) => Err(fault_in_opening(error)),
    }
}

impl<F: Written> Store<FileStore<FileFrom<F>>> {
    /// The registry in the database file at the path, which is made where there is none, its log beside it.
    /// It is read whole once. The refusals are those of `adopt`; a file that is no database is `Storage`. A
    /// schema that is named is never 2.
    pub fn open_from(
        rt: &HostRuntime,
        path: &str,
        start: F,
    ) -> Result<Store<FileStore<FileFrom<F>>>, OpenFault>
        ensures found { IfOk result
            (λ s. HasCleanDisk (file_state s.conn) → OpensOn (image_at F.Start) (file_state s.conn).now) }
        ensures unspent { IfOk result (λ s. s.spent ≡ false) }
        ensures another { IfErr result NamesNotTwo }
    {
        match or_fault(Connection::open_from(rt, path, false, start)) {
            Ok(conn) => Store::adopt_or_close(rt.alloc(), conn),
            Err(fault) => Err(fault),
        }
    }
}
