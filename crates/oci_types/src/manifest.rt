//! What a manifest says.

use crate::Digest;
use crate::kind::Kind;
use std::collections::BTreeMap;

/// What an image manifest or an index says. The bytes stay the content; this is a reading of them.
#[derive(Drop)]
pub struct Manifest {
    pub kind: Kind,
    /// The type that a list of referrers shows: the manifest's own where it is not empty, or else the
    /// media type of an image manifest's config.
    pub artifact_type: Option<String>,
    /// The blobs that have to be there: config, then layers, without those that have URLs.
    pub needs: Vec<Digest>,
    /// The blobs that it names: config, then layers, also those that have URLs; none of an index.
    pub names: Vec<Digest>,
    /// The digest of the manifest that this one refers to.
    pub subject: Option<Digest>,
    /// The manifest's own annotations.
    pub annotations: BTreeMap<String, String>,
}
