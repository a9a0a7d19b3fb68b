//! The grammar of the command line: the subcommands, and the options that each takes, with their help.
//!
//! The crate above relies on `command`, which is the command line that is stated, to the last option: words
//! are read by it and by nothing else.
#![tactic(auto)]

pub mod arguments;
pub mod grammar;
mod options;
mod results;
mod subcommands;

pub use grammar::command;
