//! What is said of requests on standard error, of which nothing is waited for.
//!
//! No contract speaks of standard error; that what is said is right is tested.
#![tactic(auto)]

pub mod cut;
pub mod limit;
mod line;
pub mod log;
pub mod outlet;

pub use cut::Cut;
pub use log::Log;
pub use outlet::Outlet;
