//! Looking for what is wrong in a registry: bytes of another digest or size, manifests that read as none,
//! tags of manifests that are not there.
//!
//! The crates above rely on `look`, which finds exactly what is wrong in the world that a keeper tells, and
//! changes nothing, and on `write_wrongs`, which writes a line for each. `laws` says that in a sound world
//! nothing is, and what holds of a world in which nothing is.
#![tactic(auto)]

mod contents;
pub mod laws;
pub mod lines;
pub mod looking;
mod notes;
pub mod progress;
pub mod wrong;

pub use lines::write_wrongs;
pub use looking::look;
pub use progress::Watch;
pub use wrong::{Flaw, Wrong};
