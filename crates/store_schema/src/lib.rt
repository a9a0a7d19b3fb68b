//! The tables of a registry: the whole schema as one term with the texts that make it, and what a
//! statement does to the rows of any of its tables.
#![tactic(auto)]

mod make;

pub use make::{make_tables, make_tables_of_pack, make_tables_of_two};
