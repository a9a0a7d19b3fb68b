//! What the rows of a registry's tables stand for, and each SQL text of a store.
//!
//! `specs/World.antt` and its neighbours say the world that rows stand for, what is kept true of them, and
//! what each change of rows makes of the world, without a statement of SQL (`laws`). Then come the SQL
//! texts, each a change or a selection of the rows of one table, and the transaction that a change of the
//! store is.
#![tactic(auto)]

pub mod blob_storing;
pub mod blobs;
pub mod contents;
pub mod grant_list;
pub mod grants;
pub mod laws;
pub mod manifests;
pub mod numbers;
pub mod open_check;
pub mod pieces;
mod reading;
pub mod repos;
pub mod subjects;
pub mod tag_list;
pub mod tag_pages;
pub mod tags;
pub mod telling;
pub mod transaction;
pub mod uploads;
