//! The head of the pack: which database it belongs to, and its age.
ghost use Rattle.std.specs.Prelude.{◌≡◌, ◌+◌, ◌<◌, ◌^◌, length};

use sha2::{Digest, Sha256};

/// How many bytes a copy of the head has.
pub(crate) const SIZE: usize = 75;

/// How many of them the digest behind them is of.
const SIGNED: usize = 43;

/// What each copy begins with.
const TEXT: &[u8] = b"firkhen contents 1\n";

/// What the head says. A copy is 75 bytes: the text `firkhen contents 1` and a line feed (19), the mark (16),
/// the age with its highest byte first (8), and the SHA-256 of these 43 bytes (32).
#[derive(Clone, Copy, Debug, PartialEq, Eq)]
pub struct Head {
    /// The same bytes stand in the database that the file belongs to.
    pub mark: [u8; 16],
    /// Rises each time before space is used again that rows once named. A database of a lower age is an older
    /// copy.
    pub age: u64,
    ghost whole_mark: { length mark ≡ 16 },
    ghost age_fits: { age < 2 ^ 64 },
}

/// One of the two copies of the head, each within 4,096 bytes of its own.
#[derive(Clone, Copy, Debug, PartialEq, Eq)]
pub enum HeadCopy {
    /// At offset 0.
    First,
    /// At offset 4,096.
    Second,
}

impl HeadCopy {
    ghost use Rattle.registry_pack.specs.Heads.{offset_of};

    /// The offset of its first byte.
    pub(crate) fn offset(self) -> usize
        ensures { result ≡ offset_of self }
    {
        match self {
            HeadCopy::First => 0,
            HeadCopy::Second => 4096,
        }
    }
}

impl Head {
    ghost use Rattle.registry_pack.specs.declared.head.Head.{Head};
    ghost use Rattle.registry_pack.specs.Heads.{head_bytes, signed_bytes};

    /// The head of the next age.
    pub(crate) fn of_next_age(self) -> Head
        requires { self.age + 1 < 2 ^ 64 }
        ensures mark { result.mark ≡ self.mark }
        ensures age { result.age ≡ self.age + 1 }
    {
        let mark = self.mark;
        Head {
            mark,
            age: self.age + 1,
        }
    }

    /// The bytes that a copy's digest is of.
    fn to_signed_bytes(self) -> [u8; SIGNED]
        ensures { result ≡ signed_bytes self }
    {
        let mut bytes = [0; SIGNED];
        bytes[..19].copy_from_slice(TEXT);
        bytes[19..35].copy_from_slice(&self.mark);
        bytes[35..].copy_from_slice(&self.age.to_be_bytes());
        bytes
    }

    /// The bytes of a copy.
    pub(crate) fn to_bytes(self) -> [u8; SIZE]
        ensures { result ≡ head_bytes self }
    {
        let signed = self.to_signed_bytes();
        let digest = Sha256::digest(&signed);
        let mut bytes = [0; SIZE];
        bytes[..SIGNED].copy_from_slice(&signed);
        bytes[SIGNED..].copy_from_slice(&digest);
        bytes
    }

    /// The head whose bytes these are. Of other bytes it is some head, and `to_bytes` gives other bytes.
    pub(crate) fn from_bytes(bytes: &[u8; SIZE]) -> Head
        ensures { (head : Head) → bytes.now ≡ head_bytes head → result ≡ head }
    {
        let mut mark = [0; 16];
        mark.copy_from_slice(&bytes[19..35]);
        let mut age = [0; 8];
        age.copy_from_slice(&bytes[35..43]);
        Head {
            mark,
            age: u64::from_be_bytes(age),
        }
    }
}
