//! The registry's limits (profile). `specs/Limits.antt` says them in definitions.

pub use oci_types::LARGEST_SESSION_NUMBER;

/// The most bytes of a blob, and of an upload session.
pub const LARGEST_BLOB: u64 = 67_108_864;

/// The most bytes of a manifest.
pub const LARGEST_MANIFEST: u64 = 4_194_304;

/// The most open upload sessions of a repository.
pub const MOST_SESSIONS: u64 = 1_000;

/// The most bytes that a quota can be, and so those of all that a repository holds.
pub const LARGEST_QUOTA: u64 = 9_223_372_036_854_775_807;
