//! The words of a registry: digests, repository names, tags, references, tokens and session numbers; and what
//! image manifests and indexes say, by the definitions that a registry goes by, with what a list of referrers
//! shows of them.
//!
//! Crates above rely on each `parse`, which reads a text exactly where its grammar has it, and on
//! `Digest::verifies`. Their definitions cite the tests of `specs/`; `laws` says what those decide. Of
//! manifests they rely on `specs/Manifest.antt`, what is read in bytes and which rule fails first
//! (`manifest_laws`); the crate `oci_documents` does so, and writes the texts of `specs/Referrers.antt` and
//! its neighbours.
#![tactic(auto)]

mod byte;
pub mod digest;
pub mod fault;
mod kind;
pub mod laws;
mod manifest;
mod manifest_fault;
pub mod manifest_laws;
mod order;
pub mod reference;
mod referrers;
pub mod repo_name;
pub mod session;
pub mod tag;
pub mod token;

pub use digest::{Digest, Hashed, Verdict};
pub use fault::{Fault, NameFault};
pub use kind::Kind;
pub use manifest::Manifest;
pub use manifest_fault::ManifestFault;
pub use reference::Reference;
pub use referrers::Referrer;
pub use repo_name::RepoName;
pub use session::{LARGEST_SESSION_NUMBER, session_number};
pub use tag::Tag;
pub use token::Token;
