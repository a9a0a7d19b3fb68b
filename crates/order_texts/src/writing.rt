//! The line that spells an order.
ghost use Rattle.std.specs.Prelude.{◌≡◌, ◌∷◌, ◌++◌, [], decimal, IfOk, OnOk, string_bytes};
ghost use Rattle.std.specs.List.{join_with_byte};
ghost use Rattle.order_texts.specs.Lines.{line_of, digit_of, form_word, held_word, shown_word, or_any, space};

use crate::words::{push_each, push_words};
use oci_types::{RepoName, Token};
use registry_model::{Level, Quota};
use registry_orders::{Change, Form, Held, Listing, Order, Shown};
use std::alloc::{AllocError, Global};

/// A line of an order has fewer bytes than this, without its end (`laws::lines_are_short`).
pub const LONGEST_LINE: usize = 600;

/// Stands where no repository or no token is given: it is no name and no token.
const ANY: &str = "*";

/// The number of a level: 1 pull, 2 push, 3 delete.
fn digit_of(level: &Level) -> &str
    ensures { result.now ≡ digit_of level.now }
{
    match level {
        Level::Pull => "1",
        Level::Push => "2",
        Level::Delete => "3",
    }
}

fn form_word(form: Form) -> &'static str
    ensures { result.now ≡ form_word form }
{
    match form {
        Form::Lines => "lines",
        Form::Json => "json",
    }
}

fn held_word(what: &Held) -> &str
    ensures { result.now ≡ held_word what.now }
{
    match what {
        Held::Tags => "tags",
        Held::Blobs => "blobs",
        Held::Unnamed => "unnamed",
    }
}

fn shown_word(shown: &Shown) -> &str
    ensures { result.now ≡ shown_word shown.now }
{
    match shown {
        Shown::Beginning => "beginning",
        Shown::Whole => "whole",
    }
}

fn name_or_any(name: &Option<RepoName>) -> &str
    ensures { result.now ≡ or_any name.now }
{
    match name {
        Some(name) => name.as_str(),
        None => ANY,
    }
}

fn token_or_any(token: &Option<Token>) -> &str
    ensures { result.now ≡ or_any token.now }
{
    match token {
        Some(token) => token.as_str(),
        None => ANY,
    }
}

/// Writes the words of a list.
fn push_listing(text: &mut String, listing: &Listing, form: Form) -> Result<(), AllocError>
    ensures { OnOk result (string_bytes text.new ≡ string_bytes text.old
        ++ line_of (Order.List listing.now form)) }
{
    push_words(text, "list", &[form_word(form)])?;
    match listing {
        Listing::Repos => text.push_str(" repos"),
        Listing::InRepo { name, what } => push_each(text, &[held_word(what), name.as_str()]),
        Listing::Grants { name, token, shown } => {
            text.push_str(" grants")?;
            push_each(
                text,
                &[shown_word(shown), name_or_any(name), token_or_any(token)],
            )
        }
    }
}

/// Writes the words of a change of a repository's quota.
fn push_quota(
    alloc: Global,
    text: &mut String,
    word: &str,
    name: &RepoName,
    quota: Quota,
) -> Result<(), AllocError>
    ensures { OnOk result (string_bytes text.new ≡ string_bytes text.old
        ++ join_with_byte space (word.now ∷ name.now ∷ decimal quota.bytes ∷ [])) }
{
    let bytes = format!(in alloc; "{}", quota.bytes)?;
    push_words(text, word, &[name.as_str(), bytes.as_str()])
}

/// Writes the words of a change.
fn push_change(alloc: Global, text: &mut String, change: &Change) -> Result<(), AllocError>
    ensures { OnOk result (string_bytes text.new ≡ string_bytes text.old
        ++ line_of (Order.Change change.now)) }
{
    match change {
        Change::AddRepo { name, quota } => push_quota(alloc, text, "repo", name, *quota),
        Change::SetQuota { name, quota } => push_quota(alloc, text, "quota", name, *quota),
        Change::DropRepo { name } => push_words(text, "drop", &[name.as_str()]),
        Change::DropSessions { name } => push_words(text, "sessions", &[name.as_str()]),
        Change::Prune { name } => push_words(text, "prune", &[name.as_str()]),
        Change::Grant { token, name, level } => {
            push_words(
                text,
                "grant",
                &[name.as_str(), digit_of(level), token.as_str()],
            )
        }
        Change::Revoke { token, name } => {
            push_words(text, "revoke", &[name.as_str(), token.as_str()])
        }
        Change::RevokeAll { token } => push_words(text, "revoke", &[token.as_str()]),
        Change::Clear => text.push_str("clear"),
    }
}

/// Writes the words of an order.
fn push_order(alloc: Global, text: &mut String, order: &Order) -> Result<(), AllocError>
    ensures { OnOk result (string_bytes text.new ≡ string_bytes text.old ++ line_of order.now) }
{
    match order {
        Order::Change(change) => push_change(alloc, text, change),
        Order::Usage => text.push_str("usage"),
        Order::List { listing, form } => push_listing(text, listing, *form),
    }
}

/// The line that spells an order, without its end.
pub fn write_order(alloc: Global, order: &Order) -> Result<String, AllocError>
    ensures { IfOk result (λ text. string_bytes text ≡ line_of order.now) }
{
    let mut text = String::new(alloc);
    push_order(alloc, &mut text, order)?;
    Ok(text)
}
