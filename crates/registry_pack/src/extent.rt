//! A run of bytes of the pack.
ghost use Rattle.std.specs.Prelude.{◌≡◌, ◌+◌, ◌<◌, ◌^◌, IfSome, IsSome};

/// The last offset that an extent may reach: the largest number of a column of the database.
const LAST: usize = 9_223_372_036_854_775_807;

/// So many bytes of the pack, from this offset on. They end at most at 9,223,372,036,854,775,807, so that
/// both numbers fit a column of the database.
#[derive(Clone, Copy, Debug, PartialEq, Eq)]
pub struct Extent {
    at: usize,
    size: usize,
    ghost fits: { at + size < 2 ^ 63 },
}

impl Extent {
    ghost use Rattle.registry_pack.specs.Extents.{starts_at, size_of};

    /// The extent of `size` bytes at `at`; `None` if it ends too far.
    pub fn new(at: usize, size: usize) -> Option<Extent>
        ensures extent { IfSome result (λ e. (starts_at e ≡ at) × (size_of e ≡ size)) }
        ensures there { at + size < 2 ^ 63 → IsSome result }
    {
        if size > LAST || at > LAST - size {
            return None;
        }
        Some(Extent { at, size })
    }

    /// The offset of its first byte.
    pub fn at(self) -> usize
        ensures at { result ≡ starts_at self }
        ensures fits { result + size_of self < 2 ^ 63 }
    {
        self.at
    }

    /// How many bytes it has.
    pub fn size(self) -> usize
        ensures size { result ≡ size_of self }
        ensures fits { starts_at self + result < 2 ^ 63 }
    {
        self.size
    }
}
