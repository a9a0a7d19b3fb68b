//! What a change of the tables is, as a value.

use crate::session_change::SessionChange;
use oci_types::{Digest, Manifest, Tag};
use registry_model::Level;
use std::alloc::Global;
use store_places::Source;
use store_statements::blobs::BlobLink;

/// What one transaction makes of the tables.
#[derive(Clone, Copy)]
pub(crate) enum Change<'a> {
    /// A blob comes that the repository has not, with its bytes.
    AddBlob {
        alloc: Global,
        repo: &'a str,
        digest: &'a str,
        source: Source<'a>,
    },
    /// A link comes that the repository has not, to a content that is there.
    AddLink {
        repo: &'a str,
        digest: &'a str,
        link: BlobLink,
    },
    /// A link to a blob goes.
    TakeBlob {
        repo: &'a str,
        digest: &'a str,
    },
    /// Links to blobs go.
    TakeBlobs {
        repo: &'a str,
        digests: &'a [Digest],
    },
    /// A manifest comes whose digest the repository has not, and the tag, if there is one, names it.
    AddManifest {
        alloc: Global,
        repo: &'a str,
        digest: &'a str,
        source: Source<'a>,
        manifest: &'a Manifest,
        tag: Option<&'a Tag>,
    },
    /// The tag, if there is one, names a digest that the repository has.
    SetTag {
        repo: &'a str,
        tag: Option<&'a Tag>,
        digest: &'a str,
    },
    /// A link to a manifest goes, with the tags that name it.
    TakeManifest {
        repo: &'a str,
        digest: &'a str,
    },
    /// A tag goes.
    TakeTag {
        repo: &'a str,
        tag: &'a str,
    },
    /// The token has this level on the repository, in the place of the one that it had.
    SetLevel {
        token: &'a str,
        repo: &'a str,
        level: Level,
    },
    /// The level of a token on a repository goes.
    TakeLevel {
        token: &'a str,
        repo: &'a str,
    },
    /// Every level of a token goes.
    TakeLevels {
        token: &'a str,
    },
    /// The repository has this quota, in bytes, and comes where it was not there.
    SetRepo {
        repo: &'a str,
        quota: u64,
    },
    /// This is the last number that an upload session of the repository got.
    SetLast {
        repo: &'a str,
        number: u64,
    },
    /// A repository goes, with all that it has.
    DropRepo {
        repo: &'a str,
    },
    /// Upload sessions change.
    Session(SessionChange<'a>),
    /// Each content goes that nothing names.
    Clear {
        alloc: Global,
    },
    /// Each content goes that nothing names, with its places in the pack.
    ClearPack {
        alloc: Global,
    },
}
