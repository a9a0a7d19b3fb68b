ghost use Rattle.std.specs.Prelude.{◌≡◌, ◌+◌, ◌<◌, ◌^◌};
ghost use Rattle.registry_server.specs.Room.{largest, pool as pool_of, room_beside as room_beside_of};

/// So many bytes of requests a connection may always hold, however many others do.
pub const SHARE: usize = 65_536;

/// How much of a request is kept with its connection at most: a head of 16,384 bytes and a manifest of
/// 4,194,304, and as many bytes as are read at once. Larger bodies are staged, or counted alone.
pub const LARGEST: usize = 4_276_224;

/// How much connections may take together.
#[derive(Clone, Copy)]
pub struct Bounds {
    /// How many may be open at once.
    pub at_once: usize,
    /// How many bytes of requests they may hold. Where that is less than `SHARE` for each that may be open
    /// and `LARGEST` once, they may hold so much all the same.
    pub coming: usize,
    /// Where replies of so many bytes wait to go out, no request is answered.
    pub going: usize,
}

/// What connections may hold above their shares, beside one largest request.
pub(crate) fn pool(bounds: &Bounds) -> usize
    ensures is { result ≡ pool_of bounds.now }
    ensures fits { result + largest < 2 ^ 64 }
{
    let least = bounds.at_once.saturating_mul(SHARE).saturating_add(LARGEST);
    bounds.coming.saturating_sub(least)
}

/// How many more bytes a connection may be given that holds so many, where all together hold `all` above
/// their shares.
pub(crate) fn room_beside(all: usize, held: usize, pool: usize) -> usize
    ensures { result ≡ room_beside_of all held pool }
{
    let others = all.saturating_sub(held.saturating_sub(SHARE));
    let most = if others <= pool {
        SHARE + LARGEST
    } else {
        SHARE
    };
    most.saturating_sub(held)
}
