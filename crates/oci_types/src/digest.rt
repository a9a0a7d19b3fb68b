//! Digests of bytes.
ghost use Rattle.std.specs.Prelude.{◌≡◌, true, MatchResult, bytes_eq, if◌then◌else◌};
ghost use Rattle.std.specs.List.{list_all};
ghost use Rattle.sha2.specs.Sha256.{sha256};
ghost use Rattle.sha2.specs.Sha512.{sha512};
ghost use Rattle.hex.specs.Hex.{encode_lower};
ghost use Rattle.oci_types.specs.Text.{Text};
ghost use Rattle.oci_types.specs.Byte.{is_lowercase_hex};
ghost use Rattle.oci_types.specs.Digest.{is_digest, has_grammar, has_registered_form, is_hex, place_after, is_end, is_algorithm_separator, is_encoded, sha256_digest, sha512_digest, verdict_of, ReadsDigest, ReadsByGrammar, IsDigestFault};

use crate::{NameFault, byte};
use sha2::{Digest as Hash, Sha256, Sha512};
use std::alloc::Global;
use std::marker::Model;

/// What comparing bytes with a digest found.
#[derive(Clone, Copy, Debug, PartialEq, Eq)]
pub enum Verdict {
    /// The digest is that of the bytes.
    Matches,
    /// It is that of other bytes.
    Differs,
    /// No bytes can be verified against a digest of this algorithm.
    Unsupported,
}

impl Verdict {
    fn of_match(is_match: bool) -> Verdict
        ensures { result ≡ (if is_match then Verdict.Matches else Verdict.Differs) }
    {
        if is_match {
            Verdict::Matches
        } else {
            Verdict::Differs
        }
    }
}

/// How far a digest has been read.
#[derive(Clone, Copy)]
enum Place {
    ComponentStart,
    Component,
    EncodedStart,
    Encoded,
    /// What was read begins no digest.
    Outside,
}

impl Place {
    fn after(self, byte: u8) -> Place
        ensures { result ≡ place_after self byte }
    {
        match self {
            Place::ComponentStart | Place::Component if byte::is_lower_or_digit(byte) =>
                Place::Component,
            Place::Component if is_separator(byte) => Place::ComponentStart,
            Place::Component if byte == b':' => Place::EncodedStart,
            Place::EncodedStart | Place::Encoded if is_encoded_character(byte) => Place::Encoded,
            _ => Place::Outside,
        }
    }

    fn is_last(self) -> bool
        ensures { result ≡ is_end self }
    {
        matches!(self, Place::Encoded)
    }
}

/// `[+._-]`
fn is_separator(byte: u8) -> bool
    ensures { result ≡ is_algorithm_separator byte }
{
    matches!(byte, b'+' | b'.' | b'_' | b'-')
}

/// `[a-zA-Z0-9=_-]`
fn is_encoded_character(byte: u8) -> bool
    ensures { result ≡ is_encoded byte }
{
    byte::is_letter_or_digit(byte) || matches!(byte, b'=' | b'_' | b'-')
}

fn fits_grammar(text: &str) -> bool
    ensures { result ≡ has_grammar text.now }
{
    text.bytes()
        .fold(Place::ComponentStart, |place, byte| place.after(byte))
        .is_last()
}

fn are_hex(text: &[u8]) -> bool
    ensures { result ≡ list_all is_lowercase_hex text.now }
{
    text.iter().all(|byte| byte::is_lower_hex(*byte))
}

fn is_hex_of(length: usize, text: &[u8]) -> bool
    ensures { result ≡ is_hex length text.now }
{
    text.len() == length && are_hex(text)
}

fn fits_algorithm(text: &[u8]) -> bool
    ensures { result ≡ has_registered_form text.now }
{
    if text.starts_with(b"sha256:") {
        is_hex_of(64, &text[7..])
    } else if text.starts_with(b"sha512:") {
        is_hex_of(128, &text[7..])
    } else {
        true
    }
}

/// Why the text is no digest, if it is none.
fn check(text: &str) -> Result<(), NameFault>
    ensures test { MatchResult result (λ _. is_digest text.now ≡ true) (IsDigestFault text.now) }
    ensures grammar { ReadsByGrammar result text.now }
{
    if !fits_grammar(text) {
        return Err(NameFault::DigestGrammar);
    }
    if !fits_algorithm(text.as_bytes()) {
        return Err(NameFault::DigestLength);
    }
    Ok(())
}

/// The encoded part is the hexadecimal text of the hash.
fn encodes_sha256(encoded: &[u8], hash: &[u8; 32]) -> bool
    ensures { result ≡ bytes_eq encoded.now (encode_lower hash.now) }
{
    let mut expected = [0; 64];
    hex::encode_to_slice(hash, &mut expected).is_ok() && encoded == expected.as_slice()
}

/// The encoded part is the hexadecimal text of the hash.
fn encodes_sha512(encoded: &[u8], hash: &[u8; 64]) -> bool
    ensures { result ≡ bytes_eq encoded.now (encode_lower hash.now) }
{
    let mut expected = [0; 128];
    hex::encode_to_slice(hash, &mut expected).is_ok() && encoded == expected.as_slice()
}

/// What tells the hashes of bytes (FIPS 180-4).
pub trait Hashed {
    /// The bytes.
    ghost bytes: { Self → Text };

    fn sha256(&self) -> [u8; 32]
        ensures { result ≡ sha256 (bytes self.now) };

    fn sha512(&self) -> [u8; 64]
        ensures { result ≡ sha512 (bytes self.now) };
}

/// Bytes at hand.
#[derive(Clone, Copy)]
struct Bytes<'a>(&'a [u8]);

impl Hashed for Bytes<'_> {
    ghost bytes = { λ b. b.0.now };

    fn sha256(&self) -> [u8; 32] {
        Sha256::digest(self.0)
    }

    fn sha512(&self) -> [u8; 64] {
        Sha512::digest(self.0)
    }
}

/// A digest (OCI Image Specification 1.1, Descriptors, Digests). Those of sha256 and sha512 have the
/// form of their algorithm; one of any other algorithm need only fit the grammar.
#[derive(Clone, Debug)]
pub struct Digest {
    text: String,
}

impl Drop for Digest {
    fn drop(self) {
        let Digest { text: _ } = self;
    }
}

impl Model for Digest {
    ghost use Rattle.std.specs.Prelude.{◌≡◌, List, ℕ, true, string_bytes};
    ghost use Rattle.oci_types.specs.Digest.{is_digest};

    ghost Value = { List ℕ };

    ghost view = { λ digest. string_bytes digest.text };

    ghost invariant = { λ digest. is_digest (string_bytes digest.text) ≡ true };
}

impl Digest {
    /// The digest that the text is. `NameFault::DigestGrammar` where the grammar has it not, and
    /// `NameFault::DigestLength` where it has, but not with the form of its algorithm.
    pub fn parse(alloc: Global, text: &str) -> Result<Digest, NameFault>
        ensures read { ReadsDigest result text.now }
        ensures grammar { ReadsByGrammar result text.now }
    {
        check(text)?;
        let text = String::from_str(alloc, text)?;
        Ok(Digest { text })
    }

    /// The sha256 digest of the bytes. The only fault is `NameFault::Memory`.
    pub fn of_sha256(alloc: Global, bytes: &[u8]) -> Result<Digest, NameFault>
        ensures { MatchResult result (λ digest. digest ≡ sha256_digest bytes.now)
            (λ fault. fault ≡ NameFault.Memory) }
    {
        let encoded = hex::encode(alloc, Sha256::digest(bytes))?;
        let text = format!(in alloc; "sha256:{encoded}")?;
        Ok(Digest { text })
    }

    /// The sha512 digest of the bytes. The only fault is `NameFault::Memory`.
    pub fn of_sha512(alloc: Global, bytes: &[u8]) -> Result<Digest, NameFault>
        ensures { MatchResult result (λ digest. digest ≡ sha512_digest bytes.now)
            (λ fault. fault ≡ NameFault.Memory) }
    {
        let encoded = hex::encode(alloc, Sha512::digest(bytes))?;
        let text = format!(in alloc; "sha512:{encoded}")?;
        Ok(Digest { text })
    }

    /// Whether the digest is that of the bytes. Takes no memory.
    pub fn verifies(&self, bytes: &[u8]) -> Verdict
        ensures { result ≡ verdict_of self.now bytes.now }
    {
        self.compare(&Bytes(bytes))
    }

    /// Whether the digest is that of the bytes whose hashes these are; of the two it asks for one at most.
    pub fn compare<H: Hashed>(&self, hashed: &H) -> Verdict
        ensures { result ≡ verdict_of self.now (H.bytes hashed.now) }
    {
        let text = self.as_str().as_bytes();
        if text.starts_with(b"sha256:") {
            return Verdict::of_match(encodes_sha256(&text[7..], &hashed.sha256()));
        }
        if text.starts_with(b"sha512:") {
            return Verdict::of_match(encodes_sha512(&text[7..], &hashed.sha512()));
        }
        Verdict::Unsupported
    }

    pub fn as_str(&self) -> &str
        ensures text { result.now ≡ self.now }
        ensures valid { is_digest result.now ≡ true }
    {
        let text = &self.text;
        text.as_str()
    }
}
