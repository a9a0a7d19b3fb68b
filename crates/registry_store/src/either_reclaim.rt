//! Contents that nothing names go from whichever of two places has the bytes.
use crate::reclaim::Reclaim;
use either::Either;
use oci_types::Fault;
use sqlite::{Alter, Connection};
use std::alloc::Global;

impl<A: Reclaim, B: Reclaim> Reclaim for Either<A, B> {
    fn clear<S: Alter>(&mut self, alloc: Global, conn: &mut Connection<S>) -> Result<(), Fault> {
        match self {
            Either::Left(one) => one.clear(alloc, conn),
            Either::Right(other) => other.clear(alloc, conn),
        }
    }
}
