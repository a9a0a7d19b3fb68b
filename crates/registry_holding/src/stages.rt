ghost use Rattle.std.specs.Prelude.{◌≡◌, ◌++◌, [], Some, None, option_map, IfOk, OnOk, OnErr};
ghost use Rattle.oci_types.specs.Digest.{verdict_of};
ghost use Rattle.registry_holding.specs.Holding.{put_under, sum_of};
ghost use Rattle.registry_holding.specs.Shown.{stages_in};

use crate::staged::{StageSum, Staged, room_for};
use oci_types::{Digest, Verdict};
use std::alloc::{AllocError, Global};
use std::collections::BTreeMap;

/// Stages under numbers, in memory.
#[derive(Drop)]
pub struct Stages {
    alloc: Global,
    map: BTreeMap<u64, Staged>,
    /// For how many bytes room is reserved.
    reserved: u64,
}

impl Stages {
    /// None; takes no memory.
    pub fn new(alloc: Global) -> Stages
        ensures { stages_in result.map ≡ (λ _. None) }
    {
        Stages {
            alloc,
            map: BTreeMap::new(alloc),
            reserved: 0,
        }
    }

    /// Puts a stage under a number, in the place of one that is there.
    fn put(&mut self, key: u64, staged: Staged) -> Result<(), AllocError>
        ensures ok { OnOk result
            (stages_in self.new.map ≡ put_under key (Some staged) (stages_in self.old.map)) }
        ensures err { OnErr result (stages_in self.new.map ≡ stages_in self.old.map) }
    {
        let more = staged.reserved();
        let before = self.map.insert(key, staged)?;
        let less = match &before {
            Some(before) => before.reserved(),
            None => 0,
        };
        self.reserved = self.reserved.saturating_add(more).saturating_sub(less);
        Ok(())
    }

    /// Whether there is room for a stage of which this many bytes are expected, where all together may have
    /// so many.
    pub fn has_room(&self, expected: u64, most: u64) -> bool {
        room_for(expected) <= most.saturating_sub(self.reserved)
    }

    /// Begins an empty one under a number, with room for this many bytes. `with_sha512` asks for its SHA-512
    /// besides.
    pub fn begin(&mut self, key: u64, expected: u64, with_sha512: bool) -> Result<(), AllocError>
        ensures ok { OnOk result
            (stages_in self.new.map ≡ put_under key (Some []) (stages_in self.old.map)) }
        ensures err { OnErr result (stages_in self.new.map ≡ stages_in self.old.map) }
    {
        let staged = Staged::new(self.alloc, expected, with_sha512)?;
        self.put(key, staged)
    }

    /// Takes the one under a number out.
    pub fn take(&mut self, key: u64) -> Option<Staged>
        ensures staged { result ≡ stages_in self.old.map key }
        ensures gone { stages_in self.new.map ≡ put_under key None (stages_in self.old.map) }
    {
        let staged = self.map.remove(&key);
        let less = match &staged {
            Some(staged) => staged.reserved(),
            None => 0,
        };
        self.reserved = self.reserved.saturating_sub(less);
        staged
    }

    /// Puts bytes behind those of the one under a number; nothing where there is none. Where memory is
    /// wanting, of that one nothing is said.
    pub fn extend(&mut self, key: u64, piece: &[u8]) -> Result<(), AllocError>
        ensures ok { OnOk result (stages_in self.new.map ≡ put_under key
            (option_map (λ t. t ++ piece.now) (stages_in self.old.map key)) (stages_in self.old.map)) }
        ensures err { OnErr result (stages_in self.new.map
            ≡ put_under key (stages_in self.new.map key) (stages_in self.old.map)) }
    {
        let Some(mut staged) = self.take(key) else {
            return Ok(());
        };
        staged.extend(piece)?;
        self.put(key, staged)
    }

    /// What is known of the bytes of the one under a number.
    pub fn sum(&self, key: u64) -> Option<StageSum>
        ensures { result ≡ option_map sum_of (stages_in self.now.map key) }
    {
        match self.map.get(&key) {
            Some(staged) => Some(staged.sum()),
            None => None,
        }
    }
    /// Whether a digest is that of the bytes of the one under a number.
    pub fn verdict(&self, key: u64, digest: &Digest) -> Option<Verdict>
        ensures { result ≡ option_map (verdict_of digest.now) (stages_in self.now.map key) }
    {
        match self.map.get(&key) {
            Some(staged) => Some(staged.verdict(digest)),
            None => None,
        }
    }
    /// Whether a digest is that of these bytes and those of the one under a number behind them.
    pub fn verdict_behind(
        &self,
        key: u64,
        first: Vec<u8>,
        digest: &Digest,
    ) -> Result<Option<Verdict>, AllocError>
        ensures { IfOk result (λ found. found
            ≡ option_map (λ t. verdict_of digest.now (first.items ++ t)) (stages_in self.now.map key)) }
    {
        let Some(staged) = self.map.get(&key) else {
            return Ok(None);
        };
        if first.is_empty() {
            return Ok(Some(staged.verdict(digest)));
        }
        let mut whole = first;
        whole.extend_from_slice(staged.bytes())?;
        Ok(Some(digest.verifies(whole.as_slice())))
    }
}
