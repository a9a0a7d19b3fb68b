//! Lists as JSON.
ghost use Rattle.std.specs.Prelude.{◌≡◌, map, string_bytes, IfOk};
ghost use Rattle.serde_json.specs.Data.{array, object, member, no_members, string};
ghost use Rattle.serde_json.specs.View.{view, items_view};
ghost use Rattle.oci_types.specs.Member.{text_items};
ghost use Rattle.order_texts.specs.Items.{item_shown, tag_item, blob_item, grant_item};
ghost use Rattle.order_texts.specs.Texts.{data_of, list_data, json_of};

use crate::items::{Item, number_of};
use oci_types::{Digest, RepoName, Tag};
use registry_model::Level;
use serde_json::{Value, json};
use std::alloc::{AllocError, Global};

fn digest_values(alloc: Global, digests: &[Digest]) -> Result<Vec<Value>, AllocError>
    ensures { IfOk result (λ v. items_view v.items ≡ text_items digests.now) }
{
    let mut values = Vec::new(alloc);
    for digest in digests {
        values.push(Value::try_from_str(alloc, digest.as_str())?)?;
    }
    Ok(values)
}

fn blob_value(
    alloc: Global,
    digest: &Digest,
    size: u64,
    manifests: &[Digest],
) -> Result<Value, AllocError>
    ensures { IfOk result (λ v. view v ≡ data_of (blob_item digest.now size manifests.now)) }
{
    json!(in alloc; {
        "digest": digest.as_str(),
        "manifests": Value::Array(digest_values(alloc, manifests)?),
        "size": size
    })
}

fn grant_value(
    alloc: Global,
    name: &RepoName,
    token: &str,
    level: Level,
) -> Result<Value, AllocError>
    ensures { IfOk result (λ v. view v ≡ data_of (grant_item name.now token.now level)) }
{
    let level = number_of(level);
    json!(in alloc; {"level": level, "name": name.as_str(), "token": token})
}

/// An object of one text.
fn text_value(alloc: Global, key: &str, text: &str) -> Result<Value, AllocError>
    ensures { IfOk result (λ v. view v ≡ object (member key.now (string text.now) no_members)) }
{
    json!(in alloc; {key: text})
}

fn tag_value(alloc: Global, tag: &Tag, digest: &Digest) -> Result<Value, AllocError>
    ensures { IfOk result (λ v. view v ≡ data_of (tag_item tag.now digest.now)) }
{
    json!(in alloc; {"digest": digest.as_str(), "tag": tag.as_str()})
}

fn item_value(alloc: Global, item: &Item) -> Result<Value, AllocError>
    ensures { IfOk result (λ v. view v ≡ data_of (item_shown item.now)) }
{
    match item {
        Item::Repo { name } => text_value(alloc, "name", name.as_str()),
        Item::Tag { tag, digest } => tag_value(alloc, tag, digest),
        Item::Blob {
            digest,
            size,
            manifests,
        } => blob_value(alloc, digest, *size, manifests),
        Item::Unnamed { digest } => text_value(alloc, "digest", digest.as_str()),
        Item::Grant { name, token, level } => grant_value(alloc, name, token.as_str(), *level),
    }
}

fn item_values(alloc: Global, items: &[Item]) -> Result<Vec<Value>, AllocError>
    ensures { IfOk result (λ v. array (items_view v.items) ≡ list_data (map item_shown items.now)) }
{
    let mut values = Vec::new(alloc);
    for item in items {
        values.push(item_value(alloc, item)?)?;
    }
    Ok(values)
}

/// The items as one JSON array of objects, with no space but the line's end, the keys of an object in byte
/// order.
pub fn as_json(alloc: Global, items: &[Item]) -> Result<String, AllocError>
    ensures { IfOk result (λ text. string_bytes text ≡ json_of (map item_shown items.now)) }
{
    let list = Value::Array(item_values(alloc, items)?);
    let mut text = list.to_string(alloc)?;
    text.push_str("\n")?;
    Ok(text)
}
