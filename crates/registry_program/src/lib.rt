//! What the words of a command line come to, over any opener of registries and with any ends for standard
//! input, output and error. And a server at an address, over a registry that is opened again where its
//! storage fails. It knows no database.
//!
//! The program relies on `run_words`: which task words come to, what that does over which registries, and the
//! exit status. `serving::serve` says so of a server alone, `memory::serve_in_memory` of one over a registry
//! in memory.
#![tactic(auto)]

pub mod memory;
mod running;
pub mod serving;

pub use running::run_words;
