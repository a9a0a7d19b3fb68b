//! The items of lists, read of a service.
ghost use Rattle.std.specs.Prelude.{◌≡◌, [], ◌∷◌, ◌++◌, Some, IfErr, OnOk, option_map};
ghost use Rattle.std.specs.List.{cons_option};
ghost use Rattle.registry_model.specs.Keeping.{ReadsBy, Spends};
ghost use Rattle.order_texts.specs.Items.{item_shown, items_shown, blob_item};
ghost use Rattle.order_carrying.specs.Lists.{repos_of};
ghost use Rattle.order_carrying.specs.Reading.{held_at, items_if, IsAdded};

use crate::naming::Namers;
use oci_types::{Digest, Fault, RepoName};
use order_texts::Item;
use registry_model::Keeper;
use registry_orders::Held;
use registry_service::Service;
use std::alloc::Global;

fn push(items: &mut Vec<Item>, item: Item) -> Result<(), Fault>
    ensures added { OnOk result (items_shown items.new ≡ items_shown items.old ++ item_shown item ∷ []) }
    ensures memory { IfErr result (λ fault. fault ≡ Fault.Memory) }
{
    match items.push(item) {
        Ok(()) => Ok(()),
        Err(_) => Err(Fault::Memory),
    }
}

/// The repositories, in byte order of their names.
pub fn repos<K: Keeper>(alloc: Global, service: &mut Service<K>) -> Result<Option<Vec<Item>>, Fault>
    ensures found { K.is_honest service.new
        → ReadsBy items_if result (Some (repos_of (K.kept service.old).world))
        (K.kept service.old) (K.kept service.new) }
    ensures spends { Spends result (K.kept service.old) (K.kept service.new) }
    ensures honest { K.is_honest service.new → K.is_honest service.old }
{
    let names = service.repo_names(alloc)?;
    let mut items = Vec::new(alloc);
    for name in names {
        push(&mut items, Item::Repo { name })?;
    }
    Ok(Some(items))
}

/// The tags of a repository, in byte order; none where it is not there.
fn tags<K: Keeper>(
    alloc: Global,
    service: &mut Service<K>,
    name: &RepoName,
) -> Result<Option<Vec<Item>>, Fault>
    ensures found { K.is_honest service.new
        → ReadsBy items_if result (Some (held_at (K.kept service.old).world name.now Held.Tags))
        (K.kept service.old) (K.kept service.new) }
    ensures spends { Spends result (K.kept service.old) (K.kept service.new) }
    ensures honest { K.is_honest service.new → K.is_honest service.old }
{
    let tags = service.tags(alloc, name)?;
    let mut items = Vec::new(alloc);
    for (tag, digest) in tags {
        push(&mut items, Item::Tag { tag, digest })?;
    }
    Ok(Some(items))
}

/// Adds a blob with the manifests that name it, if a read found its length; the read's fault is passed on.
fn push_blob(
    items: &mut Vec<Item>,
    digest: Digest,
    manifests: Vec<Digest>,
    found: Result<Option<u64>, Fault>,
) -> Result<(), Fault>
    ensures { IsAdded found result
        (λ size. cons_option (option_map (λ size. blob_item digest size manifests.items) size) [])
        (items_shown items.old) (items_shown items.new) }
{
    let size = found?;
    match size {
        Some(size) => push(
            items,
            Item::Blob {
                digest,
                size,
                manifests,
            },
        ),
        None => Ok(()),
    }
}

/// The blobs of a repository, in byte order of their digests; none where it is not there. Each manifest is
/// read once.
fn blobs<K: Keeper>(
    alloc: Global,
    service: &mut Service<K>,
    name: &RepoName,
) -> Result<Option<Vec<Item>>, Fault>
    ensures found { K.is_honest service.new
        → ReadsBy items_if result (Some (held_at (K.kept service.old).world name.now Held.Blobs))
        (K.kept service.old) (K.kept service.new) }
    ensures spends { Spends result (K.kept service.old) (K.kept service.new) }
    ensures honest { K.is_honest service.new → K.is_honest service.old }
{
    let mut namers = Namers::read(alloc, service, name)?;
    let digests = service.blob_digests(alloc, name)?;
    let mut items = Vec::new(alloc);
    for digest in digests {
        let manifests = namers.take(alloc, &digest);
        let found = service.blob_size(name, &digest);
        push_blob(&mut items, digest, manifests, found)?;
    }
    Ok(Some(items))
}

/// The blobs of a repository that none of its manifests names, in byte order; none where it is not there.
fn unnamed<K: Keeper>(
    alloc: Global,
    service: &mut Service<K>,
    name: &RepoName,
) -> Result<Option<Vec<Item>>, Fault>
    ensures found { K.is_honest service.new
        → ReadsBy items_if result (Some (held_at (K.kept service.old).world name.now Held.Unnamed))
        (K.kept service.old) (K.kept service.new) }
    ensures spends { Spends result (K.kept service.old) (K.kept service.new) }
    ensures honest { K.is_honest service.new → K.is_honest service.old }
{
    let digests = service.unnamed(alloc, name)?;
    let mut items = Vec::new(alloc);
    for digest in digests {
        push(&mut items, Item::Unnamed { digest })?;
    }
    Ok(Some(items))
}

/// What a repository holds; nothing where it is not there.
pub fn held<K: Keeper>(
    alloc: Global,
    service: &mut Service<K>,
    name: &RepoName,
    what: Held,
) -> Result<Option<Vec<Item>>, Fault>
    ensures found { K.is_honest service.new
        → ReadsBy items_if result (Some (held_at (K.kept service.old).world name.now what))
        (K.kept service.old) (K.kept service.new) }
    ensures spends { Spends result (K.kept service.old) (K.kept service.new) }
    ensures honest { K.is_honest service.new → K.is_honest service.old }
{
    match what {
        Held::Tags => tags(alloc, service, name),
        Held::Blobs => blobs(alloc, service, name),
        Held::Unnamed => unnamed(alloc, service, name),
    }
}
