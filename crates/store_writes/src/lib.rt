//! Each change of a registry's world as one transaction over its tables.
#![tactic(auto)]

mod blob_mounts;
mod blob_puts;
mod change;
mod changing;
mod content_clearing;
mod deletions;
mod grant_changes;
mod known_finish;
mod last_numbers;
mod manifest_puts;
mod pack_clearing;
mod quota_changes;
mod repo_removal;
mod session_appends;
mod session_change;
mod session_changes;
mod session_changing;
mod session_finish;
mod whole_sessions;

pub use blob_mounts::mount;
pub use blob_puts::put_blob;
pub use content_clearing::clear;
pub use deletions::{delete_blob, delete_blobs, delete_manifest, delete_tag};
pub use grant_changes::{grant, revoke, revoke_all};
pub use known_finish::{KnownEnd, finish_known};
pub use last_numbers::set_last;
pub use manifest_puts::put_manifest;
pub use pack_clearing::clear_pack;
pub use quota_changes::set_repo;
pub use repo_removal::drop_repo;
pub use session_appends::append;
pub use session_changes::{drop_sessions, open_session};
pub use session_finish::finish;
