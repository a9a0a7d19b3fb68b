//! The file of a registry's contents, beside its database.
ghost use Rattle.std.specs.Prelude.{◌≡◌, false, IsTrue, IfOk};
ghost use Rattle.sqlite_std_file.specs.File.{IsFresh, file_is_usable};

use crate::looking::cause_of_opening;
use crate::refusal::Refusal;
use crate::supposed::Supposed;
use layout_opening::PackFile;
use registry_orders::Cause;
use sqlite::FileFrom;
use sqlite_disk::Files;
use sqlite_std_file::OpenError;
use std::fs::OpenOptions;
use std::hash::{BuildHasher, RandomState};
use std::io::{ErrorKind, Read};
use std::marker::PhantomData;
use std::os::unix::fs::{MetadataExt, OpenOptionsExt};
use std::{fs, io};

/// What a pack begins with.
const MAGIC: &[u8] = b"firkhen contents 1\n";

/// The bytes of a pack's head, in which there are no contents yet.
const HEAD: u64 = 8192;

/// `PATH-contents`, where PATH is where the path of the database leads.
#[derive(Drop)]
pub struct ContentsFile<'a, P: Supposed> {
    rt: &'a HostRuntime,
    path: &'a str,
    supposed: PhantomData<P>,
}

impl<'a, P: Supposed> ContentsFile<'a, P> {
    /// The file beside the database at this path, which is there.
    pub fn beside(rt: &'a HostRuntime, path: &'a str) -> ContentsFile<'a, P> {
        ContentsFile {
            rt,
            path,
            supposed: PhantomData,
        }
    }
}

fn refusal_of_io(rt: &HostRuntime, path: &str, error: io::Error) -> Refusal {
    match error.kind() {
        ErrorKind::OutOfMemory => Refusal::of_memory(),
        kind => Refusal::of_storage(cause_of_opening(rt, path, kind)),
    }
}

/// The path of the file.
fn path_beside(rt: &HostRuntime, path: &str) -> io::Result<String> {
    let real = fs::canonicalize(rt, path)?;
    Ok(format!(in rt.alloc(); "{}-contents", real.as_str())?)
}

/// Whether something is at the path.
fn is_there(rt: &HostRuntime, path: &str) -> bool {
    fs::symlink_metadata(rt, path).is_ok()
}

/// Whether the file is empty, or has nothing but the head of a pack: what is left of the making of a registry
/// that was broken off.
fn is_unused(rt: &HostRuntime, path: &str) -> io::Result<bool> {
    let found = fs::symlink_metadata(rt, path)?;
    if !found.is_file() || found.len() > HEAD {
        return Ok(false);
    }
    let mut head = [0; 19];
    let count = fs::open(rt, path)?.read(&mut head)?;
    Ok(count == 0 || head.as_slice() == MAGIC)
}

/// Makes the file of a new registry, which its owner alone may read and write. One that is there is taken
/// where it is unused.
fn begin_contents(rt: &HostRuntime, path: &str) -> Result<(), Refusal> {
    let made = OpenOptions::new()
        .write(true)
        .create_new(true)
        .mode(0o600)
        .open(rt, path);
    match made {
        Ok(_) => Ok(()),
        Err(error) if error.kind() == ErrorKind::AlreadyExists => match is_unused(rt, path) {
            Ok(true) => Ok(()),
            Ok(false) => Err(Refusal::of_storage(Some(Cause::ContentsThere))),
            Err(error) => Err(refusal_of_io(rt, path, error)),
        },
        Err(error) => Err(refusal_of_io(rt, path, error)),
    }
}

fn refusal_of_files(rt: &HostRuntime, path: &str, error: OpenError) -> Refusal {
    match error {
        OpenError::OutOfMemory => Refusal::of_memory(),
        OpenError::Busy => Refusal::of_storage(Some(Cause::InUse)),
        OpenError::HotJournal => Refusal::of_storage(Some(Cause::Journal)),
        OpenError::Io(error) => refusal_of_io(rt, path, error),
    }
}

/// Opens the file, as one of a database is: no other process opens it meanwhile, and what it held has
/// settled. The log that the kit opens beside it stays empty.
fn open_contents<P: Supposed>(rt: &HostRuntime, path: &str) -> Result<FileFrom<P>, Refusal>
    ensures fresh { IfOk result (λ file. IsFresh {start = P.Start} false file) }
    ensures usable { IfOk result (λ file. IsTrue (file_is_usable P.Start file)) }
{
    match sqlite_std_file::open(rt, path, P::new()) {
        Ok(files) => {
            let Files { log, db } = files;
            drop(log);
            Ok(db)
        }
        Err(error) => Err(refusal_of_files(rt, path, error)),
    }
}

impl<P: Supposed> PackFile<FileFrom<P>> for ContentsFile<'_, P> {
    type Refused = Refusal;

    ghost bytes = { λ _. P.Start.db };

    fn find(&mut self) -> Result<FileFrom<P>, Refusal> {
        let path = match path_beside(self.rt, self.path) {
            Ok(path) => path,
            Err(error) => return Err(refusal_of_io(self.rt, self.path, error)),
        };
        if !is_there(self.rt, path.as_str()) {
            return Err(Refusal::of_storage(Some(Cause::NoContents)));
        }
        open_contents(self.rt, path.as_str())
    }

    fn create(&mut self) -> Result<FileFrom<P>, Refusal> {
        let path = match path_beside(self.rt, self.path) {
            Ok(path) => path,
            Err(error) => return Err(refusal_of_io(self.rt, self.path, error)),
        };
        begin_contents(self.rt, path.as_str())?;
        open_contents(self.rt, path.as_str())
    }

    fn draw_mark(&mut self) -> Result<[u8; 16], Refusal> {
        match RandomState::new(self.rt) {
            Ok(state) => {
                let mut mark = [0; 16];
                mark[..8].copy_from_slice(&state.hash_one(&0u8).to_le_bytes());
                mark[8..].copy_from_slice(&state.hash_one(&1u8).to_le_bytes());
                Ok(mark)
            }
            Err(error) => Err(refusal_of_io(self.rt, self.path, error)),
        }
    }
}
