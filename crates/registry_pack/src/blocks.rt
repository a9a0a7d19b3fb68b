//! The blocks in which the space of the pack is handed out.
ghost use Rattle.std.specs.Prelude.{◌≡◌, ◌↔◌, ◌≤◌, ◌<◌, ◌^◌, ℕ};
ghost use Rattle.registry_pack.specs.Extents.{Covers};
ghost use Rattle.registry_pack.specs.Blocks.{block_floor, block_ceil as ceil_of, IsInBlocks};

use crate::extent::Extent;
use crate::holes::{between, end_of};

/// How many bytes a block has. Extents that are handed out begin at multiples of it and take whole blocks.
pub const BLOCK: usize = 4096;

/// How many bytes the two copies of the head take, in front of all else.
pub const HEAD: usize = 8192;

/// The last offset where a block may end: the last multiple of `BLOCK` that an extent may reach.
pub(crate) const LAST_END: usize = 9_223_372_036_854_771_712;

/// The first multiple of `BLOCK` that is not below `n`.
pub(crate) fn block_ceil(n: usize) -> usize
    requires { n < 2 ^ 63 }
    ensures { result ≡ ceil_of n }
{
    (n + (BLOCK - 1)) / BLOCK * BLOCK
}

/// The blocks that an extent has bytes in, but for the head and for what lies from `end` on.
pub(crate) fn blocks_of(extent: Extent, end: usize) -> Extent
    requires { end < 2 ^ 63 }
    ensures { (p : ℕ) → Covers result p ↔ (IsInBlocks extent p × (p < end)) }
{
    let from = extent.at() / BLOCK * BLOCK;
    let to = block_ceil(end_of(extent));
    between(from.max(HEAD), to.min(end))
}
