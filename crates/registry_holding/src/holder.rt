ghost use Rattle.std.specs.Prelude.{◌≡◌, ◌≤◌, ◌+◌, ◌++◌, [], ℕ, true, false, length, take, drop, Option, Some, None, is_some, option_map, OnOk};
ghost use Rattle.oci_types.specs.Text.{Text};
ghost use Rattle.oci_types.specs.Digest.{matches, verdict_of};
ghost use Rattle.registry_model.specs.Limits.{largest_blob};
ghost use Rattle.registry_model.specs.World.{has_repo};
ghost use Rattle.registry_model.specs.Lookups.{append, blob_at, blob_size_at, bytes_or_none, finish, put_blob, session_at};
ghost use Rattle.registry_model.specs.Keeping.{Asks, Reads, Spends};
ghost use Rattle.registry_holding.specs.Holding.{Stages, WritesStage, Pins, count_from, with_stage, with_pin, sum_of, StageIs};

use crate::staged::StageSum;
use oci_types::{Digest, Fault, RepoName, Verdict};
use registry_model::Keeper;
use registry_model::keeper::Found;
use std::alloc::AllocError;

/// What holds bodies that come, *stages*, and contents that go out, *pins*, beside the world, each under the
/// number of a connection. What is held belongs to no repository: no request sees it. After `AllocError` and
/// `Fault::Memory` the world and what is held under other numbers have not changed, and of the stage or the
/// pin that was asked for nothing is known; after `Fault::Storage` the keeper is spent. A stage that cannot
/// be kept spends no keeper, since its bytes are in nobody's world.
pub trait Holder: Keeper {
    /// Whether there is room for one more stage, of which so many bytes are expected, or any number where
    /// that is 0. No contract speaks of it.
    fn has_room(&self, expected: u64) -> bool;

    /// Begins an empty stage, in the place of one that is there. `expected` bytes are to come, or any number:
    /// it says how much room to take at once. `with_sha512` says that a digest of that hash will be compared:
    /// the bytes are hashed for it too, as they come.
    fn stage(&mut self, key: u64, expected: u64, with_sha512: bool) -> Result<(), AllocError>
        ensures stages { Self.is_honest self.new
            → Stages result key (Some []) (Self.kept self.old) (Self.kept self.new) }
        ensures spent { (Self.kept self.new).spent ≡ (Self.kept self.old).spent }
        ensures honest { Self.is_honest self.new → Self.is_honest self.old };

    /// Puts bytes behind those of a stage. Nothing where there is none.
    fn stage_more(&mut self, key: u64, bytes: &[u8]) -> Result<(), AllocError>
        ensures stages { Self.is_honest self.new → Stages result key
            (option_map (λ t. t ++ bytes.now) ((Self.kept self.old).held.stages key))
            (Self.kept self.old) (Self.kept self.new) }
        ensures spent { (Self.kept self.new).spent ≡ (Self.kept self.old).spent }
        ensures honest { Self.is_honest self.new → Self.is_honest self.old };

    /// What is known of the bytes of a stage; hashes nothing again.
    fn staged(&mut self, key: u64) -> Found<StageSum>
        ensures found { Self.is_honest self.new → Reads result
            (option_map sum_of ((Self.kept self.old).held.stages key))
            (Self.kept self.old) (Self.kept self.new) }
        ensures spends { Spends result (Self.kept self.old) (Self.kept self.new) }
        ensures honest { Self.is_honest self.new → Self.is_honest self.old };

    /// Whether a digest is that of the bytes of a stage. Hashes nothing again, but for a digest of SHA-512
    /// of a stage that was not begun for one.
    fn verdict(&mut self, key: u64, digest: &Digest) -> Found<Verdict>
        ensures found { Self.is_honest self.new → Reads result
            (option_map (verdict_of digest.now) ((Self.kept self.old).held.stages key))
            (Self.kept self.old) (Self.kept self.new) }
        ensures spends { Spends result (Self.kept self.old) (Self.kept self.new) }
        ensures honest { Self.is_honest self.new → Self.is_honest self.old };

    /// The same of the bytes of an upload session, and those of a stage behind them. Where there is no such
    /// session, of those of the stage. Hashes them all.
    fn verdict_behind(
        &mut self,
        repo: &RepoName,
        number: u64,
        digest: &Digest,
        key: u64,
    ) -> Found<Verdict>
        ensures found { Self.is_honest self.new → Reads result
            (option_map (λ t. verdict_of digest.now
            (bytes_or_none (session_at (Self.kept self.old).world repo.now number) ++ t))
            ((Self.kept self.old).held.stages key))
            (Self.kept self.old) (Self.kept self.new) }
        ensures spends { Spends result (Self.kept self.old) (Self.kept self.new) }
        ensures honest { Self.is_honest self.new → Self.is_honest self.old };

    /// Lets a stage go, also where the keeper is spent; takes no memory.
    fn unstage(&mut self, key: u64)
        ensures gone { Self.is_honest self.new
            → Self.kept self.new ≡ with_stage (Self.kept self.old) key None }
        ensures spent { (Self.kept self.new).spent ≡ (Self.kept self.old).spent }
        ensures honest { Self.is_honest self.new → Self.is_honest self.old };

    /// As `put_blob`, of the bytes of a stage. Of that stage nothing is known afterwards.
    fn put_staged(&mut self, repo: &RepoName, digest: &Digest, key: u64) -> Result<(), Fault>
        requires there { Asks (Self.is_honest self.old) (Self.kept self.old)
            (λ w. has_repo w repo.now ≡ true) }
        requires staged { StageIs (Self.is_honest self.old) (Self.kept self.old) key
            (λ t. (matches digest.now t ≡ true) × (length t ≤ largest_blob)) }
        ensures made { Self.is_honest self.new → (t : Text)
            → (Self.kept self.old).held.stages key ≡ Some t → WritesStage result key
            (put_blob (Self.kept self.old).world repo.now digest.now t)
            (Self.kept self.old) (Self.kept self.new) }
        ensures spends { Spends result (Self.kept self.old) (Self.kept self.new) }
        ensures honest { Self.is_honest self.new → Self.is_honest self.old };

    /// As `append`, of the bytes of a stage. Of that stage nothing is known afterwards.
    fn append_staged(&mut self, repo: &RepoName, number: u64, key: u64) -> Result<(), Fault>
        requires open { Asks (Self.is_honest self.old) (Self.kept self.old)
            (λ w. is_some (session_at w repo.now number) ≡ true) }
        requires staged { StageIs (Self.is_honest self.old) (Self.kept self.old) key
            (λ t. length (bytes_or_none (session_at (Self.kept self.old).world repo.now number)) + length t
            ≤ largest_blob) }
        ensures made { Self.is_honest self.new → (t : Text)
            → (Self.kept self.old).held.stages key ≡ Some t → WritesStage result key
            (append (Self.kept self.old).world repo.now number t)
            (Self.kept self.old) (Self.kept self.new) }
        ensures spends { Spends result (Self.kept self.old) (Self.kept self.new) }
        ensures honest { Self.is_honest self.new → Self.is_honest self.old };

    /// As `finish`, where the whole bytes are those of the session and those of a stage behind them. Of that
    /// stage nothing is known afterwards.
    fn finish_staged(
        &mut self,
        repo: &RepoName,
        number: u64,
        digest: &Digest,
        key: u64,
    ) -> Result<(), Fault>
        requires open { Asks (Self.is_honest self.old) (Self.kept self.old)
            (λ w. is_some (session_at w repo.now number) ≡ true) }
        requires staged { StageIs (Self.is_honest self.old) (Self.kept self.old) key
            (λ t. let whole = bytes_or_none (session_at (Self.kept self.old).world repo.now number) ++ t in
            (matches digest.now whole ≡ true) × (length whole ≤ largest_blob)) }
        ensures made { Self.is_honest self.new → (t : Text)
            → (Self.kept self.old).held.stages key ≡ Some t → WritesStage result key
            (finish (Self.kept self.old).world repo.now number digest.now
            (bytes_or_none (session_at (Self.kept self.old).world repo.now number) ++ t))
            (Self.kept self.old) (Self.kept self.new) }
        ensures spends { Spends result (Self.kept self.old) (Self.kept self.new) }
        ensures honest { Self.is_honest self.new → Self.is_honest self.old };

    /// Keeps the bytes of a blob as they are now, to be read in pieces whatever becomes of the blob, in the
    /// place of what was pinned, and tells how many they are.
    fn pin(&mut self, key: u64, repo: &RepoName, digest: &Digest) -> Found<u64>
        ensures pins { Self.is_honest self.new → Pins result key
            (blob_size_at (Self.kept self.old).world repo.now digest.now)
            (blob_at (Self.kept self.old).world repo.now digest.now)
            (Self.kept self.old) (Self.kept self.new) }
        ensures spends { Spends result (Self.kept self.old) (Self.kept self.new) }
        ensures honest { Self.is_honest self.new → Self.is_honest self.old };

    /// Reads bytes of what is pinned, from a place on: as many as there is room for and as are there. None
    /// where nothing is pinned.
    fn read_pin(&mut self, key: u64, from: u64, room: &mut [u8]) -> Result<usize, Fault>
        ensures found { Self.is_honest self.new → Reads result
            (count_from ((Self.kept self.old).held.pins key) from (length room.old))
            (Self.kept self.old) (Self.kept self.new) }
        ensures bytes { Self.is_honest self.new → (t : Text)
            → (Self.kept self.old).held.pins key ≡ Some t → OnOk result
            (take (count_from (Some t) from (length room.old)) room.new
            ≡ take (count_from (Some t) from (length room.old)) (drop from t)) }
        ensures spends { Spends result (Self.kept self.old) (Self.kept self.new) }
        ensures honest { Self.is_honest self.new → Self.is_honest self.old };

    /// Lets go what is pinned. Nothing where the keeper is spent; takes no memory.
    fn unpin(&mut self, key: u64)
        ensures gone { Self.is_honest self.new → (Self.kept self.old).spent ≡ false
            → Self.kept self.new ≡ with_pin (Self.kept self.old) key None }
        ensures spent { (Self.kept self.new).spent ≡ (Self.kept self.old).spent }
        ensures honest { Self.is_honest self.new → Self.is_honest self.old };
}
