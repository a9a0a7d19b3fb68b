//! The items of levels of tokens on repositories.
ghost use Rattle.std.specs.Prelude.{◌≡◌, string_bytes, IfOk};
ghost use Rattle.order_texts.specs.Items.{item_shown, items_shown, grant_item};
ghost use Rattle.order_texts.specs.Grants.{written, is_asked, grants_of, items_of_grants};

use crate::items::Item;
use oci_types::{RepoName, Token};
use registry_model::{Grant, Level};
use registry_orders::Shown;
use std::alloc::{AllocError, Global};

/// A token as a list shows it.
fn written(alloc: Global, token: &Token, shown: Shown) -> Result<String, AllocError>
    ensures { IfOk result (λ text. string_bytes text ≡ written shown token.now) }
{
    match shown {
        Shown::Beginning => {
            let beginning = token.beginning();
            format!(in alloc; "{beginning}...")
        }
        Shown::Whole => String::from_str(alloc, token.as_str()),
    }
}

/// Whether a token is the one that is asked for; any is where none is.
fn is_asked(asked: &Option<Token>, token: &Token) -> bool
    ensures { result ≡ is_asked asked.now token.now }
{
    match asked {
        Some(asked) => token.as_str() == asked.as_str(),
        None => true,
    }
}

/// The item of a level.
fn grant(
    alloc: Global,
    name: &RepoName,
    token: &Token,
    level: Level,
    shown: Shown,
) -> Result<Item, AllocError>
    ensures { IfOk result (λ item.
        item_shown item ≡ grant_item name.now (written shown token.now) level) }
{
    Ok(Item::Grant {
        name: name.clone()?,
        token: written(alloc, token, shown)?,
        level,
    })
}

/// The items of a repository's levels, of those tokens that are asked for.
pub fn grants_of(
    alloc: Global,
    name: &RepoName,
    levels: &[(Token, Level)],
    asked: &Option<Token>,
    shown: Shown,
) -> Result<Vec<Item>, AllocError>
    ensures { IfOk result (λ items.
        items_shown items ≡ grants_of name.now asked.now shown levels.now) }
{
    let mut items = Vec::new(alloc);
    for (token, level) in levels {
        if is_asked(asked, token) {
            items.push(grant(alloc, name, token, *level, shown)?)?;
        }
    }
    Ok(items)
}

/// The items of levels on any repositories, in their order, of those tokens that are asked for.
pub fn items_of_grants(
    alloc: Global,
    grants: &[Grant],
    asked: &Option<Token>,
    shown: Shown,
) -> Result<Vec<Item>, AllocError>
    ensures { IfOk result (λ items.
        items_shown items ≡ items_of_grants asked.now shown grants.now) }
{
    let mut items = Vec::new(alloc);
    for one in grants {
        if is_asked(asked, &one.token) {
            items.push(grant(alloc, &one.repo, &one.token, one.level, shown)?)?;
        }
    }
    Ok(items)
}
