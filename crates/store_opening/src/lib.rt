//! What a database is found to be as a registry is opened on it, and the tables that are made in a new one.
#![tactic(auto)]

mod closing;
mod making;
mod opening;
mod version;

pub use closing::let_go;
pub use making::fault_in_making;
pub use opening::{OpenFault, fault_in_opening, take_up};
pub use version::read_version;
