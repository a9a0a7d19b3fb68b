ghost use Rattle.std.specs.Prelude.{◌≡◌, ◌++◌, [], length, IfOk, IfSome, OnOk, OnErr};
ghost use Rattle.oci_types.specs.Digest.{verdict_of};
ghost use Rattle.registry_holding.specs.Holding.{sum_of};

use oci_types::{Digest, Hashed, Verdict};
use registry_model::LARGEST_BLOB;
use sha2::{Digest as Hash, Sha256, Sha512};
use std::alloc::{AllocError, Global};
use std::marker::Model;

/// What is known of the bytes of a stage: how many they are, and their SHA-256 (FIPS 180-4).
#[derive(Clone, Copy)]
pub struct StageSum {
    pub size: u64,
    pub sha256: [u8; 32],
}

/// The bytes of a body that came so far, and the state of their SHA-256, and of their SHA-512 where it was
/// asked for: each byte is hashed as it comes. Room is reserved for all of them from the start.
#[derive(Drop)]
pub struct Staged {
    bytes: Vec<u8>,
    sha256: Sha256,
    sha512: Option<Sha512>,
    reserved: u64,
}

/// For how many bytes room is reserved where so many are expected: as many, or a largest blob where that is
/// not known.
pub fn room_for(expected: u64) -> u64 {
    if expected == 0 {
        LARGEST_BLOB
    } else {
        expected
    }
}

impl Model for Staged {
    ghost use Rattle.std.specs.Prelude.{List, ℕ, IfSome};
    ghost use Rattle.sha2.specs.Hashers.{Holds256, Holds512};

    ghost Value = { List ℕ };

    ghost view = { λ s. s.bytes.items };

    ghost invariant = { λ s. Holds256 s.sha256 s.bytes.items
        × IfSome s.sha512 (λ h. Holds512 h s.bytes.items) };
}

impl Staged {
    /// No bytes, with room for this many. `with_sha512` asks for their SHA-512 besides.
    pub fn new(alloc: Global, expected: u64, with_sha512: bool) -> Result<Staged, AllocError>
        ensures { IfOk result (λ s. s ≡ []) }
    {
        let bytes = Vec::with_capacity(alloc, expected as usize)?;
        let sha512 = if with_sha512 {
            Some(Sha512::new())
        } else {
            None
        };
        Ok(Staged {
            bytes,
            sha256: Sha256::new(),
            sha512,
            reserved: room_for(expected),
        })
    }

    /// For how many bytes room is reserved.
    pub fn reserved(&self) -> u64 {
        self.reserved
    }

    /// Puts a piece behind them, and hashes it. Where memory is wanting they stay.
    pub fn extend(&mut self, piece: &[u8]) -> Result<(), AllocError>
        ensures ok { OnOk result (self.new ≡ self.old ++ piece.now) }
        ensures err { OnErr result (self.new ≡ self.old) }
    {
        self.bytes.extend_from_slice(piece)?;
        self.sha256.update(piece);
        if let Some(hasher) = &mut self.sha512 {
            hasher.update(piece);
        }
        Ok(())
    }

    pub fn bytes(&self) -> &[u8]
        ensures { result.now ≡ self.now }
    {
        self.bytes.as_slice()
    }

    /// How many they are, and their SHA-256. Hashes nothing again.
    pub fn sum(&self) -> StageSum
        ensures { result ≡ sum_of self.now }
    {
        let sha256 = match self.sha256.clone() {
            Ok(hasher) => hasher.finalize(),
            // (a copy takes no memory, so it never fails)
            Err(_) => Sha256::digest(self.bytes()),
        };
        StageSum {
            size: self.bytes.len() as u64,
            sha256,
        }
    }

    /// Whether the digest is that of the bytes, by these sums.
    pub fn verdict(&self, digest: &Digest) -> Verdict
        ensures { result ≡ verdict_of digest.now self.now }
    {
        digest.compare(self)
    }
}

impl Hashed for Staged {
    ghost bytes = { λ s. s };

    fn sha256(&self) -> [u8; 32] {
        self.sum().sha256
    }

    /// Hashes nothing again where it was asked for as they came.
    fn sha512(&self) -> [u8; 64] {
        if let Some(state) = &self.sha512 {
            if let Ok(hasher) = state.clone() {
                return hasher.finalize();
            }
        }
        Sha512::digest(self.bytes())
    }
}
