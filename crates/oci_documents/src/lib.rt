//! Image manifests and indexes read from bytes, and the JSON texts of a registry's replies.
//!
//! `read_manifest` answers exactly what `oci_types` says that the bytes spell, or the first rule that
//! fails. `tags_text`, `error_text` and `ReferrersBody` give the exact bytes of the replies; the last gives
//! them to a `Sink`, which keeps them or counts them.
#![tactic(auto)]

mod body;
mod descriptor;
mod errors;
pub mod laws;
mod manifest;
mod member;
mod quoting;
mod referrers;
mod reply;
mod sink;
mod tags;

pub use errors::error_text;
pub use manifest::read_manifest;
pub use referrers::ReferrersBody;
pub use sink::{Length, Sink};
pub use tags::tags_text;
