//! One of two places where the bytes of contents are, as the file that was opened says.
ghost use Rattle.either.specs.Either.{either, MatchEither};
ghost use Rattle.store_bytes.specs.Sides.{side_lasts, side_remembers};

use crate::contents::Contents;
use crate::staged::Staged;
use either::Either;
use oci_types::Fault;
use sqlite::{Alter, Connection};
use std::alloc::Global;
use store_contents::ContentId;

impl<A: Contents, B: Contents> Contents for Either<A, B> {
    ghost layout = { λ e. either A.Contents.layout B.Contents.layout e };

    ghost may_leave = { λ e l.
        MatchEither e (λ a. A.Contents.may_leave a l) (λ b. B.Contents.may_leave b l) };

    ghost is_clean = { λ e. either A.Contents.is_clean B.Contents.is_clean e };

    ghost remembers = { λ e run.
        MatchEither e (λ a. A.Contents.remembers a run) (λ b. B.Contents.remembers b run) };

    ghost spares = { λ e run.
        MatchEither e (λ a. A.Contents.spares a run) (λ b. B.Contents.spares b run) };

    ghost owns = { λ e staged.
        MatchEither e (λ a. A.Contents.owns a staged) (λ b. B.Contents.owns b staged) };

    ghost names = { λ e rows.
        MatchEither e (λ a. A.Contents.names a rows) (λ b. B.Contents.names b rows) };

    ghost refuses = { λ e age.
        MatchEither e (λ a. A.Contents.refuses a age) (λ b. B.Contents.refuses b age) };

    ghost remembers_spared = { λ e run spared. side_remembers A.Contents B.Contents e run spared };

    ghost lasts = { λ e l may db all. side_lasts A.Contents B.Contents e l may db all };

    fn are_in_tables(&self) -> bool {
        match self {
            Either::Left(one) => one.are_in_tables(),
            Either::Right(other) => other.are_in_tables(),
        }
    }

    fn has_digest<S: Alter>(
        &self,
        conn: &mut Connection<S>,
        id: ContentId,
        digest: &str,
    ) -> Result<bool, Fault> {
        match self {
            Either::Left(one) => one.has_digest(conn, id, digest),
            Either::Right(other) => other.has_digest(conn, id, digest),
        }
    }

    fn read<S: Alter>(
        &mut self,
        alloc: Global,
        conn: &mut Connection<S>,
        id: ContentId,
    ) -> Result<Option<Vec<u8>>, Fault> {
        match self {
            Either::Left(one) => one.read(alloc, conn, id),
            Either::Right(other) => other.read(alloc, conn, id),
        }
    }

    fn stage(
        &mut self,
        alloc: Global,
        bytes: &[u8],
        hash: Option<[u8; 32]>,
    ) -> Result<Staged, Fault> {
        match self {
            Either::Left(one) => one.stage(alloc, bytes, hash),
            Either::Right(other) => other.stage(alloc, bytes, hash),
        }
    }

    fn give_up(&mut self, staged: Staged) {
        match self {
            Either::Left(one) => one.give_up(staged),
            Either::Right(other) => other.give_up(staged),
        }
    }
}
