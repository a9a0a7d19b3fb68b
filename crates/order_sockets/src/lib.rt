//! Those who give orders over a socket while connections are served, one line each.
//!
//! The crate above relies on `Callers`: of those who are there, each whose line got whole has exactly that
//! line carried out, once, and is told its answer, and nothing else is done. Which socket is read or written
//! when, no contract says.
#![tactic(auto)]

pub mod caller;
pub mod callers;

pub use callers::Callers;
