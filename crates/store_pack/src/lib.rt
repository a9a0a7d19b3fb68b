//! A connection together with its pack: a commit of rows that say where bytes stand, behind a sync of the
//! pack.
#![tactic(auto)]

mod age;
mod commit;
mod content;
mod deletion;
mod opening;
mod pack_contents;
mod pack_row;
mod piece;
mod placing;
mod reading;
mod reuse;
mod staged;
#[cfg(test)]
mod tests;
#[cfg(test)]
mod tests_of_contents;

pub use age::raise_age;
pub use content::read_content;
pub use deletion::delete_content;
pub use opening::{PackFault, open_pack};
pub use pack_contents::PackContents;
pub use pack_row::{PackRow, put_pack_row, read_pack_row, set_age};
pub use piece::write_piece;
pub use reading::{extents_in_use, extents_of};
pub use staged::put_staged;
