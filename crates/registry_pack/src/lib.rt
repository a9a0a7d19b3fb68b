//! The pack: one file beside the database, in which the bytes of contents stand at their extents.
#![tactic(auto)]

mod blocks;
mod content;
mod extent;
mod head;
mod heads;
mod holes;
mod pack;
mod pack_ages;
mod pack_file;
mod pack_opening;
mod places;
mod space;
#[cfg(test)]
mod tests;
#[cfg(test)]
mod tests_of_pack;
#[cfg(test)]
mod tests_of_space;
#[cfg(test)]
mod tests_of_table;

pub use blocks::{BLOCK, HEAD};
pub use content::{Compared, compare_piece, read_piece, run_from};
pub use extent::Extent;
pub use head::{Head, HeadCopy};
pub use heads::{read_head, write_head};
pub use pack::Pack;
pub use pack_ages::RenewError;
pub use pack_opening::OpenError;
pub use places::{cut, length, sync, write};
pub use space::Space;
