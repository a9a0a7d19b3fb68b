//! A registry's world in the tables of a SQLite database.
#![tactic(auto)]

mod came;
mod counted_blobs;
mod counted_repos;
mod counted_sessions;
mod counted_writes;
mod either_reclaim;
mod fault_noting;
mod following;
mod foretelling;
mod keeper;
mod known_ends;
mod known_usages;
mod next_usage;
mod origin;
mod pack_reclaim;
mod pack_store;
mod reclaim;
mod restoring;
mod row_writes;
mod staged_writes;
mod store;
mod usage_reads;
mod write;
mod written;

pub use origin::{Foreign, Origin, Ours};
pub use reclaim::Reclaim;
pub use store::Store;
pub use store_opening::OpenFault;
pub use written::Written;
