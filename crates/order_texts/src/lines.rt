//! Lists of a line for each item.
ghost use Rattle.std.specs.Prelude.{◌≡◌, ◌∷◌, ◌++◌, map, decimal, string_bytes, IfOk, OnOk};
ghost use Rattle.registry_model.specs.Operation.{rank};
ghost use Rattle.order_texts.specs.Items.{item_shown};
ghost use Rattle.order_texts.specs.Texts.{behind_spaces, line_of, lines_of};

use crate::items::{Item, number_of};
use oci_types::{Digest, RepoName};
use registry_model::Level;
use std::alloc::{AllocError, Global};

/// Writes a text, a space and another text.
fn push_two(text: &mut String, first: &str, second: &str) -> Result<(), AllocError>
    ensures { OnOk result (string_bytes text.new
        ≡ string_bytes text.old ++ (first.now ++ 32 ∷ second.now)) }
{
    text.push_str(first)?;
    text.push_str(" ")?;
    text.push_str(second)
}

/// Writes digests, each behind a space.
fn push_behind_spaces(text: &mut String, digests: &[Digest]) -> Result<(), AllocError>
    ensures { OnOk result (string_bytes text.new ≡ string_bytes text.old ++ behind_spaces digests.now) }
{
    for digest in digests {
        text.push_str(" ")?;
        text.push_str(digest.as_str())?;
    }
    Ok(())
}

/// Writes a blob: its digest, its length, and the manifests that name it.
fn push_blob(
    alloc: Global,
    text: &mut String,
    digest: &Digest,
    size: u64,
    manifests: &[Digest],
) -> Result<(), AllocError>
    ensures { OnOk result (string_bytes text.new ≡ string_bytes text.old
        ++ (digest.now ++ 32 ∷ decimal size ++ behind_spaces manifests.now)) }
{
    let size = format!(in alloc; "{size}")?;
    push_two(text, digest.as_str(), size.as_str())?;
    push_behind_spaces(text, manifests)
}

/// Writes a level: the repository's name, the token as it is shown, and the level's number.
fn push_grant(
    alloc: Global,
    text: &mut String,
    name: &RepoName,
    token: &str,
    level: Level,
) -> Result<(), AllocError>
    ensures { OnOk result (string_bytes text.new ≡ string_bytes text.old
        ++ (name.now ++ 32 ∷ token.now ++ 32 ∷ decimal (rank level))) }
{
    push_two(text, name.as_str(), token)?;
    let number = number_of(level);
    let number = format!(in alloc; " {number}")?;
    text.push_str(number.as_str())
}

/// Writes an item, without the line's end.
fn push_item(alloc: Global, text: &mut String, item: &Item) -> Result<(), AllocError>
    ensures { OnOk result (string_bytes text.new
        ≡ string_bytes text.old ++ line_of (item_shown item.now)) }
{
    match item {
        Item::Repo { name } => text.push_str(name.as_str()),
        Item::Tag { tag, digest } => push_two(text, tag.as_str(), digest.as_str()),
        Item::Blob {
            digest,
            size,
            manifests,
        } => push_blob(alloc, text, digest, *size, manifests),
        Item::Unnamed { digest } => text.push_str(digest.as_str()),
        Item::Grant { name, token, level } => {
            push_grant(alloc, text, name, token.as_str(), *level)
        }
    }
}

/// The items, a line for each: what an item shows, with a space between each two.
pub fn as_lines(alloc: Global, items: &[Item]) -> Result<String, AllocError>
    ensures { IfOk result (λ text. string_bytes text ≡ lines_of (map item_shown items.now)) }
{
    let mut text = String::new(alloc);
    for item in items {
        push_item(alloc, &mut text, item)?;
        text.push_str("\n")?;
    }
    Ok(text)
}
