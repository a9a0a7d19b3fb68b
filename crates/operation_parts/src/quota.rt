//! Whether a change goes over a repository's quota.

ghost use Rattle.std.specs.Prelude.{◌≡◌, ℕ, ◌<◌, ◌+◌, nat_lt};
ghost use Rattle.registry_model.specs.Usage.{in_64_bits};
ghost use Rattle.registry_model.specs.Keeping.{Spends};
ghost use Rattle.operation_parts.specs.Operating.{IsUnspent};
ghost use Rattle.operation_parts.specs.Quota.{grows_over_at, blob_grows_over, manifest_grows_over};
ghost use Rattle.operation_parts.specs.Finding.{Finds};

use oci_types::{Digest, Fault, RepoName};
use registry_model::{Keeper, Usage};

/// Whether so many bytes more are more than the quota, where some are added. The used bytes may be
/// cut at the largest of 64 bits, which is no less than any quota.
fn exceeds(usage: Usage, more: u64) -> bool
    requires { 0 < more }
    ensures { (n : ℕ) → usage.used ≡ in_64_bits n → result ≡ nat_lt usage.quota (n + more) }
{
    usage.used > usage.quota || more > usage.quota - usage.used
}

/// Whether a change of the repository that adds `added` bytes and takes `gone` away goes over its
/// quota: it uses more than before, and more than the quota (profile). A change that adds no more
/// than it takes away asks for nothing.
pub fn goes_over<K: Keeper>(
    keeper: &mut K,
    name: &RepoName,
    added: u64,
    gone: u64,
) -> Result<bool, Fault>
    requires unspent { IsUnspent (K.kept keeper.old) }
    ensures found { K.is_honest keeper.new →
        Finds result (λ w. grows_over_at w name.now added gone) (K.kept keeper.old) (K.kept keeper.new) }
    ensures spends { Spends result (K.kept keeper.old) (K.kept keeper.new) }
    ensures honest { K.is_honest keeper.new → K.is_honest keeper.old }
{
    if added <= gone {
        return Ok(false);
    }
    let usage = keeper.usage(name)?;
    Ok(exceeds(usage, added - gone))
}

/// Whether a blob of `length` bytes under the digest, in the place of `gone` bytes of a session that
/// ends, goes over the repository's quota. A digest that is there adds nothing; whether it is there is
/// asked only where so many bytes would go over.
pub fn blob_goes_over<K: Keeper>(
    keeper: &mut K,
    name: &RepoName,
    digest: &Digest,
    length: u64,
    gone: u64,
) -> Result<bool, Fault>
    requires unspent { IsUnspent (K.kept keeper.old) }
    ensures found { K.is_honest keeper.new → Finds result
        (λ w. blob_grows_over w name.now digest.now length gone) (K.kept keeper.old) (K.kept keeper.new) }
    ensures spends { Spends result (K.kept keeper.old) (K.kept keeper.new) }
    ensures honest { K.is_honest keeper.new → K.is_honest keeper.old }
{
    if !goes_over(keeper, name, length, gone)? {
        return Ok(false);
    }
    Ok(keeper.blob_size(name, digest)?.is_none())
}

/// Whether a manifest of `length` bytes under the digest goes over the repository's quota. A digest
/// that is there adds nothing; whether it is there is asked only where so many bytes would go over.
pub fn manifest_goes_over<K: Keeper>(
    keeper: &mut K,
    name: &RepoName,
    digest: &Digest,
    length: u64,
) -> Result<bool, Fault>
    requires unspent { IsUnspent (K.kept keeper.old) }
    ensures found { K.is_honest keeper.new → Finds result
        (λ w. manifest_grows_over w name.now digest.now length) (K.kept keeper.old) (K.kept keeper.new) }
    ensures spends { Spends result (K.kept keeper.old) (K.kept keeper.new) }
    ensures honest { K.is_honest keeper.new → K.is_honest keeper.old }
{
    if !goes_over(keeper, name, length, 0)? {
        return Ok(false);
    }
    Ok(keeper.manifest_size(name, digest)?.is_none())
}
