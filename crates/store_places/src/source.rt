//! Where the bytes of a content that comes are found.
ghost use Rattle.std.specs.Prelude.{◌≡◌, ◌<◌, ◌^◌, length};
ghost use Rattle.registry_pack.specs.Extents.{total_of};
ghost use Rattle.store_contents.specs.Layouts.{Layout};
ghost use Rattle.store_places.specs.Source.{Fits, Suits, size_in, text_in};

use registry_pack::Extent;

/// The bytes of a content that comes.
#[derive(Clone, Copy)]
pub enum Source<'a> {
    /// The bytes themselves, which become a column of its row.
    Bytes(&'a [u8]),
    /// Where they stand in the pack already, with their SHA-256 (FIPS 180-4).
    Extents(&'a [Extent], [u8; 32]),
}

/// How many bytes the extents have together.
pub(crate) fn total(extents: &[Extent]) -> usize
    requires fits { total_of extents.now < 2 ^ 63 }
    ensures { result ≡ total_of extents.now }
{
    let mut total = 0;
    for extent in extents {
        total += extent.size();
    }
    total
}

impl Source<'_> {
    /// How many bytes they are.
    pub fn len(self) -> usize
        requires fits { Fits self }
        ensures size { result ≡ size_in self.entry }
        ensures text { (l : Layout) → Suits l self.entry → length (text_in l self.entry) ≡ result }
    {
        match self {
            Source::Bytes(bytes) => bytes.len(),
            Source::Extents(extents, _) => total(extents),
        }
    }
}
