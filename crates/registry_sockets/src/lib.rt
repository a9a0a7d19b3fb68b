//! The sockets of clients and of listeners by readiness: who is taken, read, written to and let go.
//!
//! The crate above relies on `Sockets`: each of its calls does to connections only what calls of theirs do,
//! and nothing to the service; behind the end of a round none is open that has been silent for too long.
//! Which socket is read or written when, no contract says.
#![tactic(auto)]

pub mod doors;
mod parting;
mod patience;
pub mod peer;
mod peers;
pub mod sockets;
pub mod standing;
mod stopping;
pub mod taking;
mod wanted;

pub use doors::Doors;
pub use sockets::{EVENTS, Sockets};
pub use taking::Came;
