//! A copy of a registry, from what one keeper tells into another.
//!
//! The crates above rely on `copy_registry`: behind it an empty registry is the one that was copied, without
//! its open upload sessions (`specs/Closed.antt`), and that one is as it was. A keeper into which a registry
//! is copied is a `Restore`. `laws` says what a copy has of a sound world.
#![tactic(auto)]

mod contents;
mod copied;
mod copying;
mod fault;
pub mod laws;
mod levels;
mod listed;
mod putting;
mod repository;
mod restore;

pub use copied::Copied;
pub use copying::copy_registry;
pub use fault::CopyFault;
pub use restore::Restore;
