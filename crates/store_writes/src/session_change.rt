//! What a change of upload sessions is, as a value.

use std::alloc::Global;
use store_places::Source;
use store_statements::blobs::BlobLink;

/// What one transaction makes of upload sessions.
#[derive(Clone, Copy)]
pub(crate) enum SessionChange<'a> {
    /// An empty session comes under a number that none has, which becomes the repository's last.
    Open {
        repo: &'a str,
        number: u64,
    },
    /// Bytes come behind those of a session that has `size` bytes, with their SHA-256 where it is known.
    Append {
        alloc: Global,
        repo: &'a str,
        number: u64,
        size: u64,
        source: Source<'a>,
        hash: Option<[u8; 32]>,
    },
    /// A session ends, and a blob comes that the repository has not.
    Finish {
        alloc: Global,
        repo: &'a str,
        number: u64,
        digest: &'a str,
        source: Source<'a>,
    },
    /// A session ends, and a link to its content comes that the repository has not.
    Link {
        repo: &'a str,
        number: u64,
        digest: &'a str,
        link: BlobLink,
    },
    /// A session goes, with its pieces.
    Take {
        repo: &'a str,
        number: u64,
    },
    /// All sessions of a repository go, with their pieces.
    TakeAll {
        repo: &'a str,
    },
}
