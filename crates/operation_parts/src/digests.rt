//! The digests that requests name.

ghost use Rattle.std.specs.Prelude.{◌≡◌, true, MatchResult};
ghost use Rattle.oci_types.specs.Digest.{is_verified, matches};
ghost use Rattle.operation_parts.specs.Digests.{digest_in, verifiable_in};

use oci_types::{Digest, Fault, NameFault, Verdict};
use std::alloc::Global;

/// The digest that the text is, if it is one.
pub fn read_digest(alloc: Global, text: &str) -> Result<Option<Digest>, Fault>
    ensures { MatchResult result (λ digest. digest ≡ digest_in text.now) (λ fault. fault ≡ Fault.Memory) }
{
    match Digest::parse(alloc, text) {
        Ok(digest) => Ok(Some(digest)),
        Err(fault) => match fault {
            NameFault::Memory => Err(Fault::Memory),
            _ => Ok(None),
        },
    }
}

/// The same, where bytes can be verified against the digest. The verdict on no bytes tells whether
/// they can.
pub fn verifiable_digest(alloc: Global, text: &str) -> Result<Option<Digest>, Fault>
    ensures { MatchResult result (λ digest. digest ≡ verifiable_in text.now) (λ fault. fault ≡ Fault.Memory) }
{
    let Some(digest) = read_digest(alloc, text)? else {
        return Ok(None);
    };
    match digest.verifies(b"") {
        Verdict::Unsupported => Ok(None),
        _ => Ok(Some(digest)),
    }
}

/// Whether the bytes match a digest that they can be verified against.
pub fn has_digest(digest: &Digest, bytes: &[u8]) -> bool
    requires { is_verified digest.now ≡ true }
    ensures { result ≡ matches digest.now bytes.now }
{
    match digest.verifies(bytes) {
        Verdict::Unsupported => false,
        Verdict::Matches => true,
        Verdict::Differs => false,
    }
}
