//! Registries that lie in database files.
ghost use Rattle.std.specs.Prelude.{◌≡◌, false, IfOk, IfErr};
ghost use Rattle.sqlite.specs.Files.{file_state, IsOpened};
ghost use Rattle.sqlite.specs.Start.{FindsIn};
ghost use Rattle.sqlite.specs.State.{HasCleanDisk};
ghost use Rattle.sqlite_wal.specs.Files.{image_at};
ghost use Rattle.layout_opening.specs.Opening.{OpensIn, layout_in};
ghost use Rattle.registry_cli.specs.Databases.{is_beside};

use crate::beginning::begin;
use crate::contents_file::ContentsFile;
use crate::looking::cause_at;
use crate::progress::Progress;
use crate::refusal::{Refusal, failure_of, refusal_of};
use crate::supposed::Supposed;
use layout_opening::{LayoutStore, WrittenBeside, open_layout};
use registry_model::Keeper;
use registry_opening::{Ended, Opener, Work};
use registry_orders::{Cause, Failure, Layout};
use registry_store::{OpenFault, Ours, Reclaim, Store};
use sqlite::{Alter, Connection, FileFrom, FileStore};
use sqlite_disk::Disk;
use std::marker::PhantomData;
use store_migration::migrate;
use store_opening::{fault_in_opening, let_go};

/// A registry in files, of which `F` says what is supposed of the database, and `P` of the file of contents.
pub type FileRegistry<F, P> = LayoutStore<FileStore<FileFrom<F>>, FileFrom<P>>;

/// Opens the registries that lie in database files.
#[derive(Drop)]
pub struct Databases<'a, F: Supposed + WrittenBeside<P>, P: Supposed> {
    rt: &'a HostRuntime,
    /// What was wrong with the path that was refused last, where the opening knew it.
    seen: Option<Cause>,
    supposed: PhantomData<F>,
    supposed_beside: PhantomData<P>,
}

impl<'a, F: Supposed + WrittenBeside<P>, P: Supposed> Databases<'a, F, P> {
    pub fn new(rt: &'a HostRuntime) -> Databases<'a, F, P> {
        Databases {
            rt,
            seen: None,
            supposed: PhantomData,
            supposed_beside: PhantomData,
        }
    }
}

/// What a registry lies in, and whether its storage has failed. The file of contents is closed.
fn taken_apart<S: Alter, C: Reclaim>(kept: Store<S, Ours, C>) -> (bool, Connection<S>) {
    let spent = kept.spent();
    let (conn, contents) = kept.into_parts();
    drop(contents);
    (spent, conn)
}

/// Closes the files of a registry: into that of the database the log is copied first, unless its storage has
/// failed. That files are what a store asks for is proved anew at each call, so there is one.
fn close_store<D: Disk + Drop, C: Reclaim>(kept: Store<FileStore<D>, Ours, C>) {
    let (spent, conn) = taken_apart(kept);
    if spent {
        let_go(conn);
    } else {
        let _ = conn.close();
    }
}

/// Opens the files of a database, and makes those that are missing. What is left of files that were not
/// opened is let go.
fn connect<F: Supposed>(
    rt: &HostRuntime,
    path: &str,
) -> Result<Connection<FileStore<FileFrom<F>>>, OpenFault>
    ensures opened { IfOk result (λ conn. HasCleanDisk (file_state conn) → IsOpened conn) }
    ensures found { IfOk result
        (λ conn. HasCleanDisk (file_state conn) → FindsIn (image_at F.Start) (file_state conn)) }
{
    match Connection::open_from(rt, path, false, F::new()) {
        Ok(conn) => Ok(conn),
        Err((error, _)) => Err(fault_in_opening(error)),
    }
}

/// Whether a new registry is to have its contents beside its database.
fn is_beside(layout: Layout) -> bool
    ensures { result ≡ is_beside layout }
{
    match layout {
        Layout::Tables => false,
        Layout::Beside => true,
    }
}

/// The registry at a path, as what it is; a new one as the layout says.
fn open_at<F: Supposed + WrittenBeside<P>, P: Supposed>(
    rt: &HostRuntime,
    path: &str,
    layout: Layout,
) -> Result<FileRegistry<F, P>, Refusal>
    ensures found { IfOk result
        (λ s. HasCleanDisk (file_state s.conn)
        → OpensIn (image_at F.Start) P.Start.db (is_beside layout) (layout_in s.contents)
        (file_state s.conn).now) }
    ensures unspent { IfOk result (λ s. s.spent ≡ false) }
{
    let conn = match connect::<F>(rt, path) {
        Ok(conn) => conn,
        Err(fault) => return Err(Refusal { fault, cause: None }),
    };
    let mut contents = ContentsFile::<P>::beside(rt, path);
    match open_layout(rt.alloc(), conn, is_beside(layout), &mut contents) {
        Ok(store) => Ok(store),
        Err((fault, conn)) => {
            let_go(conn);
            Err(refusal_of(fault))
        }
    }
}

impl<F: Supposed + WrittenBeside<P>, P: Supposed> Opener<FileRegistry<F, P>>
    for Databases<'_, F, P> {
    ghost use Rattle.std.specs.Prelude.{⊤};
    ghost use Rattle.registry_model.specs.Keeping.{Kept};
    ghost use Rattle.registry_cli.specs.Databases.{MayOpen};

    ghost opens = { λ _ s. MayOpen (image_at F.Start) P.Start.db s };

    // Nothing that a theorem speaks of is remembered.
    ghost had = { λ _ _. ⊤ };

    fn with_open<W: Work<FileRegistry<F, P>>>(
        &mut self,
        path: &str,
        layout: Layout,
        work: &mut W,
    ) -> Result<W::Told, Failure> {
        self.seen = None;
        begin(self.rt, path);
        let store = match open_at(self.rt, path, layout) {
            Ok(store) => store,
            Err(refusal) => {
                self.seen = refusal.cause;
                return Err(failure_of(refusal.fault));
            }
        };
        let Ended { keeper, told } = work.work(store);
        close_store(keeper);
        Ok(told)
    }

    fn migrate(&mut self, path: &str) -> Result<(), Failure> {
        self.seen = None;
        begin(self.rt, path);
        let mut progress = Progress::new(self.rt.stderr());
        match migrate(self.rt, path, F::new(), &mut progress) {
            Ok(moved) => {
                if let Some(moved) = moved {
                    progress.finish(moved);
                }
                Ok(())
            }
            Err(fault) => Err(failure_of(fault)),
        }
    }

    fn cause(&self, path: &str, failure: Failure) -> Option<Cause> {
        match failure {
            Failure::StorageFailure => match self.seen {
                Some(cause) => Some(cause),
                None => cause_at(self.rt, path),
            },
            Failure::NotARegistry => Some(Cause::NoRegistry),
            _ => None,
        }
    }
}
