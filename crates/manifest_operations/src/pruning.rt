//! Taking away the blobs that no manifest names (profile).

ghost use Rattle.std.specs.Prelude.{◌≡◌, ◌||◌, true, false, not, filter, IfErr, OnOk, MatchResult};
ghost use Rattle.oci_types.specs.Text.{Text};
ghost use Rattle.registry_model.specs.World.{has_repo, World};
ghost use Rattle.registry_model.specs.Keeping.{ReadsBy, Writes, Spends, digests_shown};
ghost use Rattle.registry_model.specs.Pruning.{names_in, is_among, prune, delete_blobs};
ghost use Rattle.manifest_operations.specs.Pruning.{names_at, is_named_at, unnamed_at, has};

use oci_documents::read_manifest;
use oci_types::{Digest, Fault, Manifest, ManifestFault, RepoName};
use registry_model::Keeper;
use std::alloc::Global;
use std::collections::BTreeSet;

/// What the bytes name as a manifest; those that do not read name nothing.
fn names_in(alloc: Global, bytes: &[u8]) -> Result<Vec<Digest>, Fault>
    ensures { MatchResult result (λ names. digests_shown names ≡ names_in bytes.now)
        (λ fault. fault ≡ Fault.Memory) }
{
    match read_manifest(alloc, bytes) {
        Ok(manifest) => {
            let Manifest { names, .. } = manifest;
            Ok(names)
        }
        Err(fault) => match fault {
            ManifestFault::Memory => Err(Fault::Memory),
            _ => Ok(Vec::new(alloc)),
        },
    }
}

/// The digests of the blobs that a manifest of the repository names; none where it is not there.
pub fn names_at<K: Keeper>(
    keeper: &mut K,
    alloc: Global,
    name: &RepoName,
    manifest: &Digest,
) -> Result<Vec<Digest>, Fault>
    ensures found { K.is_honest keeper.new → ReadsBy digests_shown result
        (names_at (K.kept keeper.old).world name.now manifest.now)
        (K.kept keeper.old) (K.kept keeper.new) }
    ensures spends { Spends result (K.kept keeper.old) (K.kept keeper.new) }
    ensures honest { K.is_honest keeper.new → K.is_honest keeper.old }
{
    match keeper.manifest(alloc, name, manifest)? {
        Some((_, bytes)) => names_in(alloc, &bytes),
        None => Ok(Vec::new(alloc)),
    }
}

/// Adds digests to a set.
fn add(named: &mut BTreeSet<Digest>, digests: Vec<Digest>) -> Result<(), Fault>
    ensures added { OnOk result ((digest : Text) → has named.new digest
        ≡ (has named.old digest || is_among (digests_shown digests) digest)) }
    ensures memory { IfErr result (λ fault. fault ≡ Fault.Memory) }
{
    match named.extend(digests) {
        Ok(()) => Ok(()),
        Err(_) => Err(Fault::Memory),
    }
}

/// The digests that some manifest of the repository names. One manifest is held at a time.
fn named_at<K: Keeper>(
    keeper: &mut K,
    alloc: Global,
    name: &RepoName,
) -> Result<BTreeSet<Digest>, Fault>
    ensures found { K.is_honest keeper.new → ReadsBy has result
        (is_named_at (K.kept keeper.old).world name.now)
        (K.kept keeper.old) (K.kept keeper.new) }
    ensures spends { Spends result (K.kept keeper.old) (K.kept keeper.new) }
    ensures honest { K.is_honest keeper.new → K.is_honest keeper.old }
{
    let mut named = BTreeSet::new(alloc);
    let manifests = keeper.manifest_digests(alloc, name)?;
    for manifest in &manifests {
        let names = names_at(keeper, alloc, name, manifest)?;
        add(&mut named, names)?;
    }
    Ok(named)
}

/// Leaves the digests that are not in the set.
fn leave_unnamed(digests: &mut Vec<Digest>, named: &BTreeSet<Digest>)
    ensures { digests_shown digests.new
        ≡ filter (λ digest. not (has named.now digest)) (digests_shown digests.old) }
{
    digests.retain(|digest| !named.contains(digest));
}

/// The digests of the blobs of a repository that none of its manifests names, in byte order; none where it
/// is not there. One manifest is held at a time.
pub fn unnamed<K: Keeper>(
    alloc: Global,
    keeper: &mut K,
    name: &RepoName,
) -> Result<Vec<Digest>, Fault>
    ensures found { K.is_honest keeper.new → ReadsBy digests_shown result
        (unnamed_at (K.kept keeper.old).world name.now)
        (K.kept keeper.old) (K.kept keeper.new) }
    ensures spends { Spends result (K.kept keeper.old) (K.kept keeper.new) }
    ensures honest { K.is_honest keeper.new → K.is_honest keeper.old }
{
    let named = named_at(keeper, alloc, name)?;
    let mut digests = keeper.blob_digests(alloc, name)?;
    leave_unnamed(&mut digests, &named);
    Ok(digests)
}

/// Takes away the blobs of a repository that is there which none of its manifests names.
pub fn prune<K: Keeper>(alloc: Global, keeper: &mut K, name: &RepoName) -> Result<(), Fault>
    requires there { K.is_honest keeper.old → (K.kept keeper.old).spent ≡ false
        → has_repo (K.kept keeper.old).world name.now ≡ true }
    ensures made { K.is_honest keeper.new → Writes result (prune (K.kept keeper.old).world name.now)
        (K.kept keeper.old) (K.kept keeper.new) }
    ensures spends { Spends result (K.kept keeper.old) (K.kept keeper.new) }
    ensures honest { K.is_honest keeper.new → K.is_honest keeper.old }
{
    let digests = unnamed(alloc, keeper, name)?;
    keeper.delete_blobs(name, &digests)
}

/// What `prune` takes away is what `unnamed` tells.
pub fn unnamed_blobs_are_pruned()
    ensures { (w : World) (name : Text) → prune w name ≡ delete_blobs w name (unnamed_at w name) }
{}
