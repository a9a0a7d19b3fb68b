//! What an operator and a service that goes on say to each other, as text: the line that spells an order of
//! the administrator, the answer to it, and what is seen of the registry, as lines, as JSON or as a table.
//! It knows of no service, and no socket is read or written here.
//!
//! The crates above rely on `read_order`, which reads a line exactly where it spells an order, and on
//! `write_failure`; the other end on `write_order` and `read_answer`. `laws` says that a line spells one
//! order at most, and how long it is. The line that asks a server to stop is no order: `is_stop`,
//! `write_stopping`. Of lists they rely on `text_of`, which gives the exact text of items, on `grants_of` and
//! `items_of_grants`, which make the items of levels, and on `table_of`.
#![tactic(auto)]

pub mod answer;
pub mod grants;
pub mod items;
pub mod laws;
mod lines;
mod number;
mod objects;
pub mod reading;
pub mod stopping;
pub mod table;
pub mod texts;
mod words;
pub mod writing;

pub use answer::{Answer, read_answer, write_failure};
pub use grants::{grants_of, items_of_grants};
pub use items::Item;
pub use reading::{Unread, read_order};
pub use stopping::{STOP, is_stop, write_stopping};
pub use table::table_of;
pub use texts::text_of;
pub use writing::{LONGEST_LINE, write_order};
