//! Many sockets by readiness, in one thread that waits in one place.
//!
//! The crate above relies on `Gathering`, which `Crowd` meets: one ledger of all that the service did
//! explains every connection. Which socket is read or written when, and that a server that is to stop ends,
//! no contract says.
#![tactic(auto)]

pub mod crowd;
pub mod gathering;
mod taking;

pub use crowd::Crowd;
pub use gathering::Gathering;
pub use registry_sockets::Doors;
