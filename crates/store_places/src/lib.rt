//! Contents whose bytes stand in a pack: the rows that say where, inside a transaction.
#![tactic(auto)]

mod add;
mod removal;
mod source;

pub use add::{add_content, add_hashed};
pub use removal::remove_content;
pub use source::Source;
