//! What the calls of a keeper come to.

use oci_types::Fault;

/// What a read finds, or that it is not there.
pub type Found<T> = Result<Option<T>, Fault>;

/// That a write was made, or why not.
pub type Outcome = Result<(), Fault>;

/// The SHA-256 of bytes (FIPS 180-4).
pub type Hash = [u8; 32];
