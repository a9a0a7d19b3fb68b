//! What a write adds to what a repository holds, and takes from it.
ghost use Rattle.std.specs.Prelude.{◌≡◌, ℕ, is_none, Some};
ghost use Rattle.oci_types.specs.Text.{Text};
ghost use Rattle.registry_model.specs.World.{World};
ghost use Rattle.registry_model.specs.Blobs.{with_blob};
ghost use Rattle.registry_model.specs.Lookups.{blob_at, session_at, session_size_at, bytes_or_none};
ghost use Rattle.registry_model.specs.Sessions.{finished};
ghost use Rattle.store_reads.specs.Usages.{Foretells};

/// What a write adds to a repository, and takes from it: `added` and `gone` are bytes, of blobs, manifests
/// and open upload sessions; `blobs`, `manifests` and `tags` are how many come, `blobs_gone`,
/// `manifests_gone` and `tags_gone` how many go; `opened` and `ended` are numbers of upload sessions.
#[derive(Clone, Copy)]
pub struct Change {
    pub added: u64,
    pub gone: u64,
    pub blobs: u64,
    pub blobs_gone: u64,
    pub manifests: u64,
    pub manifests_gone: u64,
    pub tags: u64,
    pub tags_gone: u64,
    pub opened: u64,
    pub ended: u64,
}

/// Of a write that changes none of these.
pub const NO_CHANGE: Change = Change {
    added: 0,
    gone: 0,
    blobs: 0,
    blobs_gone: 0,
    manifests: 0,
    manifests_gone: 0,
    tags: 0,
    tags_gone: 0,
    opened: 0,
    ended: 0,
};

/// Of a push of a whole blob, in bytes and blobs: of one that was there, nothing.
pub fn put_change(came: bool, bytes: &[u8]) -> Change
    ensures { (w : World) (name digest : Text) → came ≡ is_none (blob_at w name digest)
        → Foretells w name (λ r. with_blob r digest bytes.now) result }
{
    if came {
        Change {
            added: bytes.len() as u64,
            blobs: 1,
            ..NO_CHANGE
        }
    } else {
        NO_CHANGE
    }
}

/// Of the end of an upload session of `size` bytes, which are the blob's, in bytes, blobs and sessions: of a
/// blob that was there only the session goes.
pub fn known_end_change(size: u64, came: bool) -> Change
    ensures { (w : World) (name digest : Text) (number : ℕ) → session_size_at w name number ≡ Some size
        → came ≡ is_none (blob_at w name digest) → Foretells w name
        (λ r. finished r number digest (bytes_or_none (session_at w name number))) result }
{
    let ended = Change {
        gone: size,
        ended: 1,
        ..NO_CHANGE
    };
    if came {
        Change {
            added: size,
            blobs: 1,
            ..ended
        }
    } else {
        ended
    }
}
