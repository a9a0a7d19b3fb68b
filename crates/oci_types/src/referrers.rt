//! What a list of referrers shows.

use crate::Digest;
use crate::kind::Kind;
use std::collections::BTreeMap;

/// A manifest as a list of referrers shows it.
#[derive(Drop)]
pub struct Referrer {
    pub digest: Digest,
    pub kind: Kind,
    /// The length of the manifest in bytes.
    pub size: u64,
    /// The type that `read_manifest` gave for it.
    pub artifact_type: Option<String>,
    /// The manifest's own annotations.
    pub annotations: BTreeMap<String, String>,
}
