//! Bytes kept once, by whole-byte equality: a table from ids to bytes, in which no two ids have equal
//! bytes.
#![tactic(auto)]

mod add;
mod content_id;
mod fault;
mod hashed;
mod keep;
pub mod laws;
mod listing;
mod pack_digests;
mod read;
mod removal;
mod search;

pub use content_id::ContentId;
pub use fault::{done, fault_of, told};
pub use hashed::is_hashed;
pub use keep::{find_or_add, find_or_add_hashed, find_or_add_with};
pub use listing::unlinked;
pub use pack_digests::is_hashed_in_pack;
pub use read::{bytes_of, read_bytes};
pub use removal::remove;
