//! The numbers that a column can have.
ghost use Rattle.std.specs.Prelude.{◌≡◌, ◌+◌, ◌^◌, nat_lt};

/// The largest of them.
pub const LARGEST: u64 = 9_223_372_036_854_775_807;

/// Whether a column can have the sum.
pub fn has_room(size: u64, more: u64) -> bool
    ensures { result ≡ nat_lt (size + more) (2 ^ 63) }
{
    size <= LARGEST && more <= LARGEST - size
}
