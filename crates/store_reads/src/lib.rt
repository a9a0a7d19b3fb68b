//! What a store reads of a registry's world, and what a write is going to change of it.
#![tactic(auto)]

mod blobs;
mod change_lookups;
mod contents;
mod deletion_lookups;
mod found_lists;
mod grants;
mod level_lists;
mod manifests;
mod pages;
mod referrers;
mod repo_usages;
mod repos;
mod sessions;
mod tags;
mod tallies;
mod uploads;
mod usage_change;

pub use blobs::{blob, blob_digests, blob_size};
pub use change_lookups::{finish_change, manifest_change, mount_change, or_untold};
pub use deletion_lookups::{
    delete_blob_change, delete_blobs_change, delete_manifest_change, delete_tag_change,
    drop_sessions_change,
};
pub use grants::{known, level};
pub use level_lists::{all_grants, levels};
pub use manifests::{manifest, manifest_digests, manifest_size};
pub use pages::tags_after;
pub use referrers::manifests_of_subject;
pub use repo_usages::{usage, usages};
pub use repos::{count_repos, has_repo, last_number, repo_names};
pub use sessions::session_numbered;
pub use tags::{all_tags, tag};
pub use uploads::{session_size, sessions_open};
pub use usage_change::{Change, NO_CHANGE, known_end_change, put_change};
