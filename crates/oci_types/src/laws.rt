//! Laws of the definitions that contracts cite: their tests decide the grammars, and verdicts are right.
ghost use Rattle.std.specs.Prelude.{◌⊎◌, ◌≡◌, ◌↔◌, ◌≤◌, ◌<◌, ◌^◌, true, false, List, ℕ};
ghost use Rattle.oci_types.specs.Digest.{matches, verdict_of, IsDigest, is_digest, sha256_digest, sha512_digest};
ghost use Rattle.oci_types.specs.Reference.{IsReference, is_reference};
ghost use Rattle.oci_types.specs.RepoName.{IsRepoName, is_repo_name};
ghost use Rattle.std.specs.Fmt.{decimal};
ghost use Rattle.oci_types.specs.SessionNumber.{session_number_of};
ghost use Rattle.oci_types.specs.Tag.{IsTag, is_tag};
ghost use Rattle.oci_types.specs.Token.{IsToken, is_token};
ghost use Rattle.oci_types.specs.declared.repo_name.TheConstants.{LONGEST_REPO_NAME};
ghost use Rattle.oci_types.specs.declared.session.TheConstants.{LARGEST_SESSION_NUMBER};
ghost use Rattle.oci_types.specs.declared.tag.TheConstants.{LONGEST_TAG};
ghost use Rattle.oci_types.specs.declared.token.TheConstants.{LONGEST_TOKEN};

use crate::Verdict;

/// `is_digest` decides whether a text is a digest.
pub fn digest_grammar()
    ensures { (t : List ℕ) → (is_digest t ≡ true) ↔ IsDigest t }
{}

/// `is_repo_name` decides whether a text is a repository name.
pub fn repo_name_grammar()
    ensures { (t : List ℕ) → (is_repo_name t ≡ true) ↔ IsRepoName t }
{}

/// `is_tag` decides whether a text is a tag.
pub fn tag_grammar()
    ensures { (t : List ℕ) → (is_tag t ≡ true) ↔ IsTag t }
{}

/// `is_reference` decides whether a text is a reference.
pub fn reference_grammar()
    ensures { (t : List ℕ) → (is_reference t ≡ true) ↔ IsReference t }
{}

/// No text is both a tag and a digest.
pub fn no_tag_is_a_digest()
    ensures { (t : List ℕ) → is_tag t ≡ true → is_digest t ≡ false }
{}

/// `is_token` decides whether a text is a token.
pub fn token_grammar()
    ensures { (t : List ℕ) → (is_token t ≡ true) ↔ IsToken t }
{}

/// A text writes the session number n exactly where it is the decimal of n, from 1 to
/// 9,223,372,036,854,775,807.
pub fn session_number_decimal()
    ensures { (t : List ℕ) (n : ℕ)
        → (session_number_of t ≡ Some n) ↔ ((t ≡ decimal n) × (1 ≤ n) × (n < 2 ^ 63)) }
{}

/// The limits of words, which the definitions have as numbers, are what callers know them by.
pub fn limits_of_words()
    ensures repo_name { LONGEST_REPO_NAME ≡ 255 }
    ensures tag { LONGEST_TAG ≡ 128 }
    ensures token { LONGEST_TOKEN ≡ 200 }
    ensures session { LARGEST_SESSION_NUMBER ≡ 9223372036854775807 }
{}

/// The digest texts of bytes are digests.
pub fn digests_of_bytes()
    ensures sha256 { (b : List ℕ) → is_digest (sha256_digest b) ≡ true }
    ensures sha512 { (b : List ℕ) → is_digest (sha512_digest b) ≡ true }
{}

/// A verdict is `Matches` exactly where the digest is one of the two digests of the bytes, and then
/// `matches` holds.
pub fn verdicts()
    ensures decides { (d b : List ℕ)
        → (verdict_of d b ≡ Verdict.Matches) ↔ ((d ≡ sha256_digest b) ⊎ (d ≡ sha512_digest b)) }
    ensures matches { (d b : List ℕ) → verdict_of d b ≡ Verdict.Matches → matches d b ≡ true }
{}
