//! What each operation on blobs and upload sessions does to the repository of its path, over any keeper of a
//! registry's world. The crate above has judged the request when it calls one: the repository is there, and
//! the token may. It relies on `Operates`: the reply and the change of the definitions' outcome, want of
//! memory with nothing changed, or the end at a storage failure.
#![tactic(auto)]

pub mod blobs;
pub mod mounting;
pub mod session_close;
pub mod uploads;
