//! The files of worked examples, read into a book of questions and of the answers that they must get. They
//! are read apart from the program that plays them, so that a change of a keeper leaves this crate as it is.
#![tactic(auto)]

mod book;
mod line;
mod reader;
mod requests;
mod words;

pub use book::{Asked, Beginning, Book, Kind, Rows, Section, Step};
pub use reader::Reader;
pub use requests::Request;
