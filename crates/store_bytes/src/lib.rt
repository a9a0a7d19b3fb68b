//! Where a registry keeps the bytes of its contents, as a trait that the reads and the keeper are generic
//! over; the one of its implementations that keeps them in the tables; and one of two.
#![tactic(auto)]

mod contents;
mod either_contents;
mod staged;
mod table_contents;

pub use contents::Contents;
pub use staged::Staged;
pub use table_contents::TableContents;
