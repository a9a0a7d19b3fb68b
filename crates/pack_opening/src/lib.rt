//! The tables of a registry whose contents stand in a pack are made, and found.
#![tactic(auto)]

mod making;
mod opening;
#[cfg(test)]
mod tests;

pub use making::{create_tables, is_bare};
pub use opening::{find_version, take_up_pack};
