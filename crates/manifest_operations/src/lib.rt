//! What each operation on manifests, tags and referrers does to the repository of its path, as those on blobs
//! (`blob_operations`) do, and what a command that prunes takes away.
#![tactic(auto)]

mod content_type;
pub mod listing;
pub mod manifest_push;
pub mod manifests;
mod pruning;
pub mod referrers;

pub use pruning::{names_at, prune, unnamed, unnamed_blobs_are_pruned};
