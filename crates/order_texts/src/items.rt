//! The items of lists.
ghost use Rattle.std.specs.Prelude.{◌≡◌};
ghost use Rattle.registry_model.specs.Operation.{rank};

use oci_types::{Digest, RepoName, Tag};
use registry_model::Level;

/// An item of a list.
pub enum Item {
    Repo {
        name: RepoName,
    },
    /// A tag, and the digest that it names.
    Tag {
        tag: Tag,
        digest: Digest,
    },
    Blob {
        digest: Digest,
        /// Its length in bytes.
        size: u64,
        /// The manifests that name it.
        manifests: Vec<Digest>,
    },
    /// A blob that no manifest names.
    Unnamed {
        digest: Digest,
    },
    /// The level of a token on a repository; the token as it is shown.
    Grant {
        name: RepoName,
        token: String,
        level: Level,
    },
}

// (written out, so that where one is dropped it is by a call)
impl Drop for Item {
    fn drop(self) {
        match self {
            Item::Repo { name: _ } => {}
            Item::Tag { tag: _, digest: _ } => {}
            Item::Blob {
                digest: _,
                size: _,
                manifests: _,
            } => {}
            Item::Unnamed { digest: _ } => {}
            Item::Grant {
                name: _,
                token: _,
                level: _,
            } => {}
        }
    }
}

/// The number of a level: 1 pull, 2 push, 3 delete.
pub fn number_of(level: Level) -> u8
    ensures { result ≡ rank level }
{
    match level {
        Level::Pull => 1,
        Level::Push => 2,
        Level::Delete => 3,
    }
}
