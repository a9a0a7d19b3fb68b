//! What operations on blobs and on manifests share: what they ask of their keeper and come to (`Operates`),
//! digests that requests name, what is answered before an operation is done, the quota, and replies that
//! carry texts of their own.
#![tactic(auto)]

pub mod digests;
pub mod early;
pub mod quota;
pub mod replies;
