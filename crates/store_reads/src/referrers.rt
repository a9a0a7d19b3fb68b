//! The manifests on a subject.
ghost use Rattle.std.specs.Prelude.{◌≡◌};
ghost use Rattle.sqlite.specs.Held.{state};
ghost use Rattle.registry_model.specs.Keeping.{entries_shown};
ghost use Rattle.registry_model.specs.Lookups.{manifests_on_at};
ghost use Rattle.store_statements.specs.Between.{Finds, Stays, Tells};
ghost use Rattle.store_statements.specs.Clauses.{Lasts};
ghost use Rattle.store_bytes.specs.Reading.{IsReadable, IsAsWas};
ghost use Rattle.store_reads.specs.Each.{AreTold, IsEntry};

use crate::contents::content;
use crate::found_lists::push_found;
use oci_types::{Digest, Fault, RepoName};
use sqlite::{Alter, Connection};
use std::alloc::Global;
use store_bytes::Contents;
use store_contents::ContentId;
use store_statements::subjects::manifests_on_subject;

/// With the digest go the bytes of its content.
fn entry<S: Alter, C: Contents>(
    alloc: Global,
    conn: &mut Connection<S>,
    contents: &mut C,
    referrer: (Digest, ContentId),
) -> Result<(Digest, Vec<u8>), Fault>
    ensures found { IsReadable C.Contents contents.old contents.new (state S.Store conn.old)
        → Finds S.Store (C.Contents.layout contents.old) conn.old conn.new result
        (λ t entry. IsEntry t referrer entry) }
    ensures settled { Stays S.Store (C.Contents.layout contents.old) conn.old conn.new result }
    ensures survives { Lasts S.Store conn.old conn.new }
    ensures same { IsAsWas C.Contents contents.old contents.new }
{
    let (digest, id) = referrer;
    match content(alloc, conn, contents, id) {
        Ok(bytes) => Ok((digest, bytes)),
        Err(fault) => Err(fault),
    }
}

/// The same of each of them, in their order.
fn entries<S: Alter, C: Contents>(
    alloc: Global,
    conn: &mut Connection<S>,
    contents: &mut C,
    referrers: Vec<(Digest, ContentId)>,
) -> Result<Vec<(Digest, Vec<u8>)>, Fault>
    ensures found { IsReadable C.Contents contents.old contents.new (state S.Store conn.old)
        → Finds S.Store (C.Contents.layout contents.old) conn.old conn.new result
        (λ t entries. AreTold (IsEntry t) referrers.items entries.items) }
    ensures settled { Stays S.Store (C.Contents.layout contents.old) conn.old conn.new result }
    ensures survives { Lasts S.Store conn.old conn.new }
    ensures same { IsAsWas C.Contents contents.old contents.new }
{
    let mut entries = Vec::new(alloc);
    for referrer in referrers {
        push_found(&mut entries, entry(alloc, conn, contents, referrer))?;
    }
    Ok(entries)
}

/// The digests and the bytes of the manifests whose subject is the digest, in byte order of their own
/// digests.
pub fn manifests_of_subject<S: Alter, C: Contents>(
    alloc: Global,
    conn: &mut Connection<S>,
    contents: &mut C,
    repo: &RepoName,
    digest: &Digest,
) -> Result<Vec<(Digest, Vec<u8>)>, Fault>
    ensures found { IsReadable C.Contents contents.old contents.new (state S.Store conn.old)
        → Tells S.Store (C.Contents.layout contents.old) conn.old conn.new result
        (λ w entries. entries_shown entries ≡ manifests_on_at w repo.now digest.now) }
    ensures settled { Stays S.Store (C.Contents.layout contents.old) conn.old conn.new result }
    ensures survives { Lasts S.Store conn.old conn.new }
    ensures same { IsAsWas C.Contents contents.old contents.new }
{
    let referrers = manifests_on_subject(alloc, conn, repo.as_str(), digest.as_str())?;
    entries(alloc, conn, contents, referrers)
}
