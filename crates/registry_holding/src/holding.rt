ghost use Rattle.std.specs.Prelude.{◌≡◌, ◌≤◌, true, length};
ghost use Rattle.oci_types.specs.Digest.{matches};
ghost use Rattle.registry_model.specs.Limits.{largest_blob};
ghost use Rattle.registry_model.specs.Keeping.{nothing_held};
ghost use Rattle.registry_holding.specs.Shown.{held_in, or_memory};
ghost use Rattle.registry_holding.specs.Sharing.{AreShared};

mod keeper;

use crate::Holder;
use crate::pins::Pins;
use crate::shared_blobs::SharedBlobs;
use crate::staged::{StageSum, Staged};
use crate::stages::Stages;
use oci_types::{Digest, Fault, RepoName, Verdict};
use registry_model::keeper::Found;
use registry_model::{Keeper, LARGEST_BLOB};
use std::alloc::{AllocError, Global};

/// A keeper that holds bodies and contents in memory beside what another keeps.
#[derive(Drop)]
pub struct Holding<K: Keeper> {
    alloc: Global,
    keeper: K,
    stages: Stages,
    pins: Pins,
    /// Blobs that were read, as the keeper has them.
    shared: SharedBlobs,
    /// How many bytes stages may have together.
    most: u64,
    ghost shares: { AreShared shared.map (K.is_honest keeper) (K.kept keeper) },
}

/// What came of taking memory.
fn or_memory(taken: Result<(), AllocError>) -> Result<(), Fault>
    ensures { result ≡ or_memory taken }
{
    match taken {
        Ok(()) => Ok(()),
        Err(_) => Err(Fault::Memory),
    }
}

/// Whether bytes may be a blob of this digest.
fn is_blob(digest: &Digest, bytes: &[u8]) -> bool
    ensures { result ≡ true → (matches digest.now bytes.now ≡ true) × (length bytes.now ≤ largest_blob) }
{
    bytes.len() as u64 <= LARGEST_BLOB && matches!(digest.verifies(bytes), Verdict::Matches)
}

/// Whether a stage may be a blob of this digest.
fn fits(staged: &Staged, digest: &Digest) -> bool
    ensures { result ≡ true → (matches digest.now staged.now ≡ true) × (length staged.now ≤ largest_blob) }
{
    matches!(staged.verdict(digest), Verdict::Matches)
        && staged.bytes().len() as u64 <= LARGEST_BLOB
}

impl<K: Keeper> Holding<K> {
    /// Nothing is held beside what the keeper keeps; takes no memory.
    pub fn new(alloc: Global, keeper: K) -> Holding<K>
        ensures keeps { result.keeper ≡ keeper }
        ensures holds { held_in result.stages.map result.pins.map ≡ nothing_held }
    {
        Holding::within(alloc, keeper, u64::MAX, 0)
    }

    /// The same, where stages together may have so many bytes: one that would have more is not begun, as if
    /// memory were wanting. A stage counts as many bytes as are expected, or as a largest blob. Of blobs that
    /// were read last, as many bytes are held as `recent` says, so that they need not be read again.
    pub fn within(alloc: Global, keeper: K, most: u64, recent: usize) -> Holding<K>
        ensures keeps { result.keeper ≡ keeper }
        ensures holds { held_in result.stages.map result.pins.map ≡ nothing_held }
    {
        Holding {
            alloc,
            keeper,
            stages: Stages::new(alloc),
            pins: Pins::new(alloc),
            shared: SharedBlobs::new(alloc, recent),
            most,
        }
    }

    /// The keeper; what was held goes.
    pub fn into_keeper(self) -> K
        ensures { result ≡ self.keeper }
    {
        let Holding { keeper, .. } = self;
        keeper
    }
}

impl<K: Keeper> Holder for Holding<K> {
    fn has_room(&self, expected: u64) -> bool {
        self.stages.has_room(expected, self.most)
    }

    fn stage(&mut self, key: u64, expected: u64, with_sha512: bool) -> Result<(), AllocError> {
        if !self.stages.has_room(expected, self.most) {
            return Err(AllocError);
        }
        self.stages.begin(key, expected, with_sha512)
    }

    fn stage_more(&mut self, key: u64, bytes: &[u8]) -> Result<(), AllocError> {
        self.stages.extend(key, bytes)
    }

    fn staged(&mut self, key: u64) -> Found<StageSum> {
        if self.keeper.spent() {
            return Err(Fault::Storage);
        }
        Ok(self.stages.sum(key))
    }

    fn verdict(&mut self, key: u64, digest: &Digest) -> Found<Verdict> {
        if self.keeper.spent() {
            return Err(Fault::Storage);
        }
        Ok(self.stages.verdict(key, digest))
    }

    fn verdict_behind(
        &mut self,
        repo: &RepoName,
        number: u64,
        digest: &Digest,
        key: u64,
    ) -> Found<Verdict> {
        let first = match self.keeper.session(self.alloc, repo, number)? {
            Some(bytes) => bytes,
            None => Vec::new(self.alloc),
        };
        match self.stages.verdict_behind(key, first, digest) {
            Ok(found) => Ok(found),
            Err(_) => Err(Fault::Memory),
        }
    }

    fn unstage(&mut self, key: u64) {
        self.stages.take(key);
    }

    fn put_staged(&mut self, repo: &RepoName, digest: &Digest, key: u64) -> Result<(), Fault> {
        if self.keeper.spent() {
            return Err(Fault::Storage);
        }
        match self.stages.take(key) {
            Some(staged) => {
                if fits(&staged, digest) {
                    self.keeper.put_blob(repo, digest, staged.bytes())
                } else {
                    Err(Fault::Memory)
                }
            }
            None => Err(Fault::Memory),
        }
    }

    fn append_staged(&mut self, repo: &RepoName, number: u64, key: u64) -> Result<(), Fault> {
        if self.keeper.spent() {
            return Err(Fault::Storage);
        }
        match self.stages.take(key) {
            Some(staged) => {
                let hash = staged.sum().sha256;
                self.keeper.append(repo, number, staged.bytes(), Some(hash))
            }
            None => Err(Fault::Memory),
        }
    }

    fn finish_staged(
        &mut self,
        repo: &RepoName,
        number: u64,
        digest: &Digest,
        key: u64,
    ) -> Result<(), Fault> {
        let Some(mut bytes) = self.keeper.session(self.alloc, repo, number)? else {
            return Err(Fault::Memory);
        };
        let Some(staged) = self.stages.take(key) else {
            return Err(Fault::Memory);
        };
        let Ok(()) = bytes.extend_from_slice(staged.bytes()) else {
            return Err(Fault::Memory);
        };
        let whole = bytes.as_slice();
        if !is_blob(digest, whole) {
            return Err(Fault::Memory);
        }
        self.keeper.finish(repo, number, digest, whole)
    }

    fn pin(&mut self, key: u64, repo: &RepoName, digest: &Digest) -> Found<u64> {
        match self.keeper.blob(self.alloc, repo, digest)? {
            Some(bytes) => {
                let size = bytes.len() as u64;
                or_memory(self.pins.put(key, bytes))?;
                Ok(Some(size))
            }
            None => {
                self.pins.remove(key);
                Ok(None)
            }
        }
    }

    fn read_pin(&mut self, key: u64, from: u64, room: &mut [u8]) -> Result<usize, Fault> {
        if self.keeper.spent() {
            return Err(Fault::Storage);
        }
        Ok(self.pins.read(key, from, room))
    }

    fn unpin(&mut self, key: u64) {
        self.pins.remove(key);
    }
}
