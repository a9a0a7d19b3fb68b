//! Bytes that were brought where a layout keeps bytes.
ghost use Rattle.std.specs.Prelude.{◌≡◌, length};
ghost use Rattle.store_contents.specs.Layouts.{Layout};
ghost use Rattle.store_places.specs.Source.{Fits, IfBytes, Suits, runs_in, size_in, text_in};
ghost use Rattle.store_bytes.specs.Staging.{HasSize, IsStaged, runs_staged};

use registry_pack::Extent;
use store_places::Source;

/// What a write of rows needs of the bytes of a content.
#[derive(Drop)]
pub enum Staged {
    /// They go into the row.
    InRow,
    /// They stand at these extents of the pack, and this is their SHA-256 (FIPS 180-4).
    AtExtents(Vec<Extent>, [u8; 32]),
}

impl Staged {
    /// The bytes as a write takes them.
    pub fn source<'a>(&'a self, bytes: &'a [u8]) -> Source<'a>
        ensures suits { (l : Layout) → IsStaged l bytes.now self.now
            → Suits l result × (text_in l result ≡ bytes.now) }
        ensures fits { HasSize (length bytes.now) self.now → Fits result }
        ensures size { HasSize (length bytes.now) self.now → size_in result ≡ length bytes.now }
        ensures bytes { IfBytes (λ they. they ≡ bytes.now) result }
        ensures runs { runs_in result ≡ runs_staged self.now }
    {
        match self {
            Staged::InRow => Source::Bytes(bytes),
            Staged::AtExtents(extents, hash) => Source::Extents(extents, *hash),
        }
    }
}
