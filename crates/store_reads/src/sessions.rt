//! The bytes of upload sessions.
ghost use Rattle.std.specs.Prelude.{◌≡◌, ◌<◌, ◌^◌};
ghost use Rattle.sqlite.specs.Held.{state};
ghost use Rattle.registry_model.specs.Keeping.{bytes_in};
ghost use Rattle.registry_model.specs.Lookups.{session_at};
ghost use Rattle.store_statements.specs.World.{pieces_of, joined};
ghost use Rattle.store_statements.specs.Between.{Finds, Stays, Tells};
ghost use Rattle.store_statements.specs.Clauses.{Lasts};
ghost use Rattle.store_bytes.specs.Reading.{IsReadable, IsAsWas};

use crate::contents::joined;
use crate::uploads::expect_no_session;
use oci_types::{Fault, RepoName};
use sqlite::{Alter, Connection};
use std::alloc::Global;
use store_bytes::Contents;
use store_statements::numbers::LARGEST;
use store_statements::pieces::pieces_in_order;
use store_statements::uploads::find_upload;

/// The bytes of a session whose size is known.
fn session_bytes<S: Alter, C: Contents>(
    alloc: Global,
    conn: &mut Connection<S>,
    contents: &mut C,
    repo: &str,
    number: u64,
    size: u64,
) -> Result<Vec<u8>, Fault>
    requires fits { number < 2 ^ 63 }
    ensures found { IsReadable C.Contents contents.old contents.new (state S.Store conn.old)
        → Finds S.Store (C.Contents.layout contents.old) conn.old conn.new result
        (λ t bytes. bytes.items ≡ joined t.contents (pieces_of t.pieces repo.now number)) }
    ensures settled { Stays S.Store (C.Contents.layout contents.old) conn.old conn.new result }
    ensures survives { Lasts S.Store conn.old conn.new }
    ensures same { IsAsWas C.Contents contents.old contents.new }
{
    let ids = pieces_in_order(alloc, conn, repo, number)?;
    joined(alloc, conn, contents, &ids, size)
}

/// The bytes of an open upload session. A number that does not fit is that of no session: the caller asks for
/// none.
pub(crate) fn session<S: Alter, C: Contents>(
    alloc: Global,
    conn: &mut Connection<S>,
    contents: &mut C,
    repo: &RepoName,
    number: u64,
) -> Result<Option<Vec<u8>>, Fault>
    requires fits { number < 2 ^ 63 }
    ensures found { IsReadable C.Contents contents.old contents.new (state S.Store conn.old)
        → Tells S.Store (C.Contents.layout contents.old) conn.old conn.new result
        (λ w o. bytes_in o ≡ session_at w repo.now number) }
    ensures settled { Stays S.Store (C.Contents.layout contents.old) conn.old conn.new result }
    ensures survives { Lasts S.Store conn.old conn.new }
    ensures same { IsAsWas C.Contents contents.old contents.new }
{
    let repo = repo.as_str();
    match find_upload(conn, repo, number)? {
        Some(size) => Ok(Some(session_bytes(alloc, conn, contents, repo, number, size)?)),
        None => Ok(None),
    }
}

/// The bytes of an open upload session, whatever the number is.
pub fn session_numbered<S: Alter, C: Contents>(
    alloc: Global,
    conn: &mut Connection<S>,
    contents: &mut C,
    repo: &RepoName,
    number: u64,
) -> Result<Option<Vec<u8>>, Fault>
    ensures found { IsReadable C.Contents contents.old contents.new (state S.Store conn.old)
        → Tells S.Store (C.Contents.layout contents.old) conn.old conn.new result
        (λ w o. bytes_in o ≡ session_at w repo.now number) }
    ensures settled { Stays S.Store (C.Contents.layout contents.old) conn.old conn.new result }
    ensures survives { Lasts S.Store conn.old conn.new }
    ensures same { IsAsWas C.Contents contents.old contents.new }
{
    if number <= LARGEST {
        return session(alloc, conn, contents, repo, number);
    }
    match expect_no_session(conn, repo, number) {
        Ok(()) => Ok(None),
        Err(fault) => Err(fault),
    }
}
