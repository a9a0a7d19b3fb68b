//! What is written to a repository, as a value.

use oci_types::{Digest, Manifest, RepoName, Tag};
use store_places::Source;

/// A write to what a repository holds, whose change look-ups tell.
#[derive(Clone, Copy)]
pub(crate) enum Write<'a> {
    /// A blob of another repository comes.
    Mount {
        from: &'a RepoName,
        digest: &'a Digest,
    },
    /// A manifest comes, and the tag, if there is one, names it. What is kept is the bytes' source.
    PutManifest {
        digest: &'a Digest,
        bytes: &'a [u8],
        source: Source<'a>,
        manifest: &'a Manifest,
        tag: Option<&'a Tag>,
    },
    /// An upload session ends, and these bytes come as a blob. What is kept is their source.
    Finish {
        number: u64,
        digest: &'a Digest,
        bytes: &'a [u8],
        source: Source<'a>,
    },
    /// A blob goes.
    DeleteBlob {
        digest: &'a Digest,
    },
    /// Blobs go.
    DeleteBlobs {
        digests: &'a [Digest],
    },
    /// A manifest goes, with the tags that name it.
    DeleteManifest {
        digest: &'a Digest,
    },
    /// A tag goes.
    DeleteTag {
        tag: &'a Tag,
    },
    /// All open upload sessions end.
    DropSessions,
}
