//! The keeper over ordered maps: the registry in memory, and the plain map that every other keeper is
//! measured by. It keeps whole bytes for each repository and never fails but for want of memory.
#![tactic(auto)]

mod kept_manifest;
mod levels;
mod map_keeper;
mod memory;
mod putting;
mod repository;

pub use map_keeper::MapKeeper;
