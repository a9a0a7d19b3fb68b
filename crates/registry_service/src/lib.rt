//! Answers requests and carries out commands over any keeper of a registry's world. The crate above
//! relies on `Service::handle`: the definitions' reply and world, want of memory with nothing
//! changed, or the end at a storage failure.
#![tactic(auto)]

mod admin_commands;
mod answering;
pub mod body;
mod judging;
mod login;
mod operation;
pub mod run;
pub mod service;

pub use body::{CountedBody, RequestBody, StagedBody, WholeBody};
pub use registry_model::{AdminCommand, AdminFault};
pub use run::{Outcome, Step};
pub use service::Service;
