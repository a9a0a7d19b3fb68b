//! The opening of a registry whose contents are in its tables or in a pack beside them: as what it is, and a
//! new one as it is asked for.
//!
//! The crate above relies on `open_layout`, which gives one type of store for both layouts, and hands it what
//! finds or makes the file of contents (`PackFile`). `specs/Opening.antt` says which databases are a
//! registry's, and what is opened on them.
#![tactic(auto)]

mod beside;
mod fault;
mod opening;
mod pack_file;
mod tables;
mod written;

pub use fault::LayoutFault;
pub use opening::open_layout;
pub use pack_file::PackFile;
pub use tables::LayoutStore;
pub use written::WrittenBeside;
