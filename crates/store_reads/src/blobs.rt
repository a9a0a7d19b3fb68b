//! The blobs of repositories.
ghost use Rattle.std.specs.Prelude.{◌≡◌, ℕ, Vec, Option, Ok, IfOk};
ghost use Rattle.std.specs.declared.alloc.Global.{Global};
ghost use Rattle.sqlite.specs.Held.{state};
ghost use Rattle.registry_model.specs.Lookups.{blob_at, blob_size_at, blob_digests_at};
ghost use Rattle.registry_model.specs.Keeping.{bytes_in, shared_in, digests_shown};
ghost use Rattle.store_contents.specs.Layouts.{Layout};
ghost use Rattle.store_statements.specs.Between.{Keeps, Stays, Tells};
ghost use Rattle.store_statements.specs.Clauses.{Lasts};
ghost use Rattle.store_bytes.specs.Reading.{IsReadable, IsAsWas};
ghost use Rattle.store_statements.specs.Held.{is_storage};

use crate::contents::content;
use oci_types::{Digest, Fault, RepoName};
use registry_model::share;
use sqlite::{Alter, Connection};
use std::alloc::Global;
use std::rc::Rc;
use store_bytes::Contents;
use store_statements::blobs::{find_blob_link, list_blob_digests};

/// The length of a blob in bytes. Reads no blob.
pub fn blob_size<S: Alter>(
    conn: &mut Connection<S>,
    repo: &RepoName,
    digest: &Digest,
) -> Result<Option<u64>, Fault>
    ensures found { (l : Layout)
        → Tells S.Store l conn.old conn.new result (λ w v. v ≡ blob_size_at w repo.now digest.now) }
    ensures settled { (l : Layout) → Stays S.Store l conn.old conn.new result }
    ensures kept { (l : Layout) → Keeps S.Store l conn.old conn.new }
    ensures survives { Lasts S.Store conn.old conn.new }
{
    match find_blob_link(conn, repo.as_str(), digest.as_str()) {
        Ok(Some(link)) => Ok(Some(link.size)),
        Ok(None) => Ok(None),
        Err(fault) => Err(fault),
    }
}

/// What was read, so that several may hold it.
fn shared(alloc: Global, read: Result<Option<Vec<u8>>, Fault>) -> Result<Option<Rc<Vec<u8>>>, Fault>
    ensures found { IfOk result (λ v. (b : Option (Vec ℕ Global)) × (read ≡ Ok b)
        × (shared_in v ≡ bytes_in b)) }
    ensures storage { is_storage result ≡ is_storage read }
{
    match read {
        Ok(bytes) => match share(alloc, bytes) {
            Ok(bytes) => Ok(bytes),
            Err(_) => Err(Fault::Memory),
        },
        Err(fault) => Err(fault),
    }
}

/// The bytes of a blob.
fn blob_bytes<S: Alter, C: Contents>(
    alloc: Global,
    conn: &mut Connection<S>,
    contents: &mut C,
    repo: &RepoName,
    digest: &Digest,
) -> Result<Option<Vec<u8>>, Fault>
    ensures found { IsReadable C.Contents contents.old contents.new (state S.Store conn.old)
        → Tells S.Store (C.Contents.layout contents.old) conn.old conn.new result
        (λ w v. bytes_in v ≡ blob_at w repo.now digest.now) }
    ensures settled { Stays S.Store (C.Contents.layout contents.old) conn.old conn.new result }
    ensures survives { Lasts S.Store conn.old conn.new }
    ensures same { IsAsWas C.Contents contents.old contents.new }
{
    match find_blob_link(conn, repo.as_str(), digest.as_str()) {
        Ok(Some(link)) => match content(alloc, conn, contents, link.content) {
            Ok(bytes) => Ok(Some(bytes)),
            Err(fault) => Err(fault),
        },
        Ok(None) => Ok(None),
        Err(fault) => Err(fault),
    }
}

/// The bytes of a blob, so that several may hold them.
pub fn blob<S: Alter, C: Contents>(
    alloc: Global,
    conn: &mut Connection<S>,
    contents: &mut C,
    repo: &RepoName,
    digest: &Digest,
) -> Result<Option<Rc<Vec<u8>>>, Fault>
    ensures found { IsReadable C.Contents contents.old contents.new (state S.Store conn.old)
        → Tells S.Store (C.Contents.layout contents.old) conn.old conn.new result
        (λ w v. shared_in v ≡ blob_at w repo.now digest.now) }
    ensures settled { Stays S.Store (C.Contents.layout contents.old) conn.old conn.new result }
    ensures survives { Lasts S.Store conn.old conn.new }
    ensures same { IsAsWas C.Contents contents.old contents.new }
{
    let read = blob_bytes(alloc, conn, contents, repo, digest);
    shared(alloc, read)
}

/// The digests of a repository's blobs, in byte order. Reads no blob.
pub fn blob_digests<S: Alter>(
    alloc: Global,
    conn: &mut Connection<S>,
    repo: &RepoName,
) -> Result<Vec<Digest>, Fault>
    ensures found { (l : Layout) → Tells S.Store l conn.old conn.new result
        (λ w digests. digests_shown digests ≡ blob_digests_at w repo.now) }
    ensures settled { (l : Layout) → Stays S.Store l conn.old conn.new result }
    ensures survives { Lasts S.Store conn.old conn.new }
{
    list_blob_digests(alloc, conn, repo.as_str())
}
