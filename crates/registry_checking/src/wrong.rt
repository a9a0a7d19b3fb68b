//! What no sound registry has.
ghost use Rattle.std.specs.Prelude.{◌≡◌};
ghost use Rattle.registry_checking.specs.Lines.{words_of};

use oci_types::{Digest, RepoName, Tag};

/// What is wrong with a blob or a manifest.
#[derive(Clone, Copy)]
pub enum Flaw {
    /// Its bytes are not those of its digest.
    OtherBytes,
    /// Another size is told than that of its bytes.
    OtherSize,
    /// A manifest whose bytes read as none.
    NoManifest,
    /// It could not be read, and the look at the registry ended there.
    Unreadable,
}

impl Flaw {
    /// What is said of it.
    pub fn words(self) -> &'static str
        ensures { result.now ≡ words_of self }
    {
        match self {
            Flaw::OtherBytes => "not the bytes of this digest",
            Flaw::OtherSize => "not as many bytes as it is told to have",
            Flaw::NoManifest => "no manifest",
            Flaw::Unreadable => "cannot be read",
        }
    }
}

/// Something that is wrong in a repository.
pub enum Wrong {
    /// A blob or a manifest.
    Content {
        repo: RepoName,
        digest: Digest,
        flaw: Flaw,
    },
    /// A tag that names no manifest.
    Tag {
        repo: RepoName,
        tag: Tag,
    },
}

// (written out, so that where one is dropped it is by a call)
impl Drop for Wrong {
    fn drop(self) {
        match self {
            Wrong::Content {
                repo: _,
                digest: _,
                flaw: _,
            } => {}
            Wrong::Tag { repo: _, tag: _ } => {}
        }
    }
}
