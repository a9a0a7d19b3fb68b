//! A registry file of schema 1 becomes one of schema 2, in one transaction.
//!
//! What the old rows stand for, and that moving them one by one keeps the world that the rows of both
//! schemas stand for together, is said without a statement of SQL (`laws`). Then come the SQL texts on the
//! tables that only schema 1 has (`old_blobs` and so on), the moves of rows inside a transaction
//! (`blob_moves` and so on), and the migration of a file. After a fault, want of memory or a storage
//! failure, nothing is committed, and the caller gives the transaction up.
#![tactic(auto)]

mod blob_moves;
mod file;
mod first_bytes;
pub mod laws;
mod manifest_moves;
mod migration;
pub mod old_blobs;
pub mod old_keys;
pub mod old_manifests;
pub mod old_sessions;
mod rewrite;
mod session_moves;
mod version;
mod watch;
pub mod worked;

pub use blob_moves::{move_blob, move_blobs};
pub use file::migrate;
pub use manifest_moves::{move_manifest, move_manifests};
pub use migration::migrate_open;
pub use rewrite::MovedRows;
pub use session_moves::{move_session, move_sessions};
pub use version::raise_version;
pub use watch::{OldTable, Watch};
