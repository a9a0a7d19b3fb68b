//! Repository names.
ghost use Rattle.std.specs.Prelude.{◌≡◌, ◌↔◌, true, IsTrue};
ghost use Rattle.oci_types.specs.Reading.{ReadsWord, ReadsWordBy};
ghost use Rattle.oci_types.specs.RepoName.{IsRepoName, is_repo_name, is_path, place_after, is_end};

use crate::{NameFault, byte};
use std::alloc::Global;
use std::marker::Model;

/// The most bytes of a repository name.
pub const LONGEST_REPO_NAME: usize = 255;

/// How far a path has been read.
#[derive(Clone, Copy)]
enum Place {
    /// A word has to begin here.
    Start,
    Word,
    /// After one `_`.
    Underscore,
    /// After one or more `-`.
    Dashes,
    /// What was read begins no path.
    Outside,
}

impl Place {
    fn after(self, byte: u8) -> Place
        ensures { result ≡ place_after self byte }
    {
        match self {
            Place::Outside => Place::Outside,
            _ if byte::is_lower_or_digit(byte) => Place::Word,
            Place::Word => match byte {
                b'.' | b'/' => Place::Start,
                b'_' => Place::Underscore,
                b'-' => Place::Dashes,
                _ => Place::Outside,
            },
            Place::Underscore if byte == b'_' => Place::Start,
            Place::Dashes if byte == b'-' => Place::Dashes,
            _ => Place::Outside,
        }
    }

    fn is_last(self) -> bool
        ensures { result ≡ is_end self }
    {
        matches!(self, Place::Word)
    }
}

fn has_path(text: &str) -> bool
    ensures { result ≡ is_path text.now }
{
    text.bytes()
        .fold(Place::Start, |place, byte| place.after(byte))
        .is_last()
}

fn is_name(text: &str) -> bool
    ensures test { result ≡ is_repo_name text.now }
    ensures grammar { IsTrue result ↔ IsRepoName text.now }
{
    text.len() <= LONGEST_REPO_NAME && has_path(text)
}

/// A repository name (OCI Distribution Specification 1.1, Pulling manifests): words of `[a-z0-9]`
/// joined by `.`, `_`, `__`, `/` or dashes, at most 255 bytes in all (profile).
#[derive(Clone, Debug)]
pub struct RepoName {
    text: String,
}

impl Drop for RepoName {
    fn drop(self) {
        let RepoName { text: _ } = self;
    }
}

impl Model for RepoName {
    ghost use Rattle.std.specs.Prelude.{◌≡◌, List, ℕ, true, string_bytes};
    ghost use Rattle.oci_types.specs.RepoName.{is_repo_name};

    ghost Value = { List ℕ };

    ghost view = { λ name. string_bytes name.text };

    ghost invariant = { λ name. is_repo_name (string_bytes name.text) ≡ true };
}

impl RepoName {
    /// The name that the text is. `NameFault::Name` where it is none.
    pub fn parse(alloc: Global, text: &str) -> Result<RepoName, NameFault>
        ensures read { ReadsWord result text.now (is_repo_name text.now) NameFault.Name }
        ensures grammar { ReadsWordBy result (IsRepoName text.now) NameFault.Name }
    {
        if !is_name(text) {
            return Err(NameFault::Name);
        }
        let text = String::from_str(alloc, text)?;
        Ok(RepoName { text })
    }

    pub fn as_str(&self) -> &str
        ensures text { result.now ≡ self.now }
        ensures valid { is_repo_name result.now ≡ true }
    {
        let text = &self.text;
        text.as_str()
    }
}
