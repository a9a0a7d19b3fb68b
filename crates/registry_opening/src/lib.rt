//! How a registry that lies in a database is opened for one piece of work, and taken over.
//!
//! The crates above rely on `Opener` and `Work`: what a program does over the registries of any opener says
//! what it does over those in database files, whose opener knows nothing of programs. Between two moments of
//! an opener `specs/Openings.antt` tells what was opened, and how often.
#![tactic(auto)]

mod opener;
mod work;

pub use opener::Opener;
pub use work::{Ended, Work};
