//! Orders of the administrator, carried out over a service or a keeper, and answered; and the lists of what a
//! registry holds.
//!
//! The crates above rely on `carry_out` and `carry_over`, which carry an order out as the command that says
//! the same, or write the table or the list that it asks for; and on `answer_line`, which carries out what a
//! line spells, as one step of what the service does, and gives the whole answer. `list_text` gives the exact
//! text of a list of the world, and changes nothing; `laws` says that a list has one text.
#![tactic(auto)]

pub mod answering;
pub mod carrying;
mod grants;
pub mod laws;
pub mod lists;
mod naming;
mod reading;

pub use answering::answer_line;
pub use carrying::{Ended, carry_out, carry_over};
pub use lists::list_text;
