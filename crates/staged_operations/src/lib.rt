//! What the operations that take a body do where it is staged under the number of a connection, over any
//! holder: a push of a blob, a chunk of an upload session, and its last chunk. Each is that of
//! `blob_operations` on the bytes that are staged. Of the stage nothing is known afterwards; all else that is
//! held stays.
#![tactic(auto)]

pub mod blobs;
pub mod session_close;
pub mod uploads;
