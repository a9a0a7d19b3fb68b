//! Upload sessions of one piece: their bytes are those of one content, whose digest is known unread.
ghost use Rattle.std.specs.Prelude.{◌≡◌, ◌<◌, ◌^◌, MatchResult, if◌then◌else◌, Some, None, Ok, Err};
ghost use Rattle.store_contents.specs.Layouts.{Layout};
ghost use Rattle.store_bytes.specs.Keeping.{AreOfKind};
ghost use Rattle.store_statements.specs.Between.{Finds, Keeps, Stays};
ghost use Rattle.store_statements.specs.Clauses.{Lasts};
ghost use Rattle.store_writes.specs.Whole.{only_link, whole_link, known_link};

use oci_types::Fault;
use sqlite::{Alter, Connection};
use std::alloc::Global;
use store_bytes::Contents;
use store_contents::ContentId;
use store_statements::blobs::BlobLink;
use store_statements::pieces::pieces_in_order;
use store_statements::uploads::find_upload;

/// The link to the one content, of `size` bytes; none where there are several, or no content.
fn only(ids: &[ContentId], size: u64) -> Option<BlobLink>
    ensures { result ≡ only_link size ids.now }
{
    match ids {
        [content] => Some(BlobLink {
            size,
            content: *content,
        }),
        _ => None,
    }
}

/// The link to the one content that was found, of `size` bytes.
fn piece_link(found: Result<Vec<ContentId>, Fault>, size: u64) -> Result<Option<BlobLink>, Fault>
    ensures { MatchResult found (λ ids. result ≡ Ok (only_link size ids.items))
        (λ fault. result ≡ Err fault) }
{
    match found {
        Ok(ids) => Ok(only(&ids, size)),
        Err(fault) => Err(fault),
    }
}

/// The link to the content of an open session that has one piece.
fn find_whole<S: Alter>(
    alloc: Global,
    conn: &mut Connection<S>,
    repo: &str,
    number: u64,
) -> Result<Option<BlobLink>, Fault>
    requires fits { number < 2 ^ 63 }
    ensures found { (l : Layout)
        → Finds S.Store l conn.old conn.new result (λ t o. o ≡ whole_link t repo.now number) }
    ensures settled { (l : Layout) → Stays S.Store l conn.old conn.new result }
    ensures kept { (l : Layout) → Keeps S.Store l conn.old conn.new }
    ensures survives { Lasts S.Store conn.old conn.new }
{
    match find_upload(conn, repo, number) {
        Ok(Some(size)) => piece_link(pieces_in_order(alloc, conn, repo, number), size),
        Ok(None) => Ok(None),
        Err(fault) => Err(fault),
    }
}

/// The link, where its content was found to have the digest.
fn with_digest(found: Result<bool, Fault>, link: BlobLink) -> Result<Option<BlobLink>, Fault>
    ensures { MatchResult found (λ so. result ≡ Ok (if so then Some link else None))
        (λ fault. result ≡ Err fault) }
{
    match found {
        Ok(true) => Ok(Some(link)),
        Ok(false) => Ok(None),
        Err(fault) => Err(fault),
    }
}

/// The link to the content of an open session that has one piece and this digest of sha256. No bytes are
/// read.
pub(crate) fn find_known<S: Alter, C: Contents>(
    alloc: Global,
    conn: &mut Connection<S>,
    contents: &C,
    repo: &str,
    number: u64,
    digest: &str,
) -> Result<Option<BlobLink>, Fault>
    requires fits { number < 2 ^ 63 }
    ensures found { (l : Layout) → AreOfKind (C.Contents.layout contents.now) l
        → Finds S.Store l conn.old conn.new result (λ t o. o ≡ known_link t repo.now number digest.now) }
    ensures settled { (l : Layout) → AreOfKind (C.Contents.layout contents.now) l
        → Stays S.Store l conn.old conn.new result }
    ensures kept { (l : Layout) → AreOfKind (C.Contents.layout contents.now) l
        → Keeps S.Store l conn.old conn.new }
    ensures survives { Lasts S.Store conn.old conn.new }
{
    match find_whole(alloc, conn, repo, number) {
        Ok(Some(link)) => with_digest(contents.has_digest(conn, link.content, digest), link),
        Ok(None) => Ok(None),
        Err(fault) => Err(fault),
    }
}
