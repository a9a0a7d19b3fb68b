//! Two results at once.
ghost use Rattle.std.specs.Prelude.{◌≡◌, Ok, IfOk};

use std::alloc::AllocError;

/// Both values, or the first error. A `?` on it has neither of them in its way, to be dropped there.
pub(crate) fn both<A: Drop, B: Drop>(
    one: Result<A, AllocError>,
    other: Result<B, AllocError>,
) -> Result<(A, B), AllocError>
    ensures { IfOk result (λ p. (one ≡ Ok p.0) × (other ≡ Ok p.1)) }
{
    let one = one?;
    Ok((one, other?))
}
