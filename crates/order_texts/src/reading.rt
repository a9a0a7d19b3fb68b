//! An order read from its line.
ghost use Rattle.std.specs.Prelude.{◌≡◌, ◌==◌, [], ◌∷◌, IfOk, IfErr, MatchOption, map, codes, decimal};
ghost use Rattle.std.specs.List.{slice_split};
ghost use Rattle.registry_model.specs.declared.level.Level.{Level};
ghost use Rattle.registry_model.specs.declared.quota.Quota.{Quota};
ghost use Rattle.registry_orders.specs.declared.listing.Form.{Form};
ghost use Rattle.registry_orders.specs.declared.listing.Held.{Held};
ghost use Rattle.registry_orders.specs.declared.listing.Shown.{Shown};
ghost use Rattle.order_texts.specs.Lines.{space, digit_of, form_word, held_word, shown_word, IsProperName, IsProperToken, Spells, AreWordsOf};
ghost use Rattle.order_texts.specs.Reading.{IsUnread, AreUnread, IsWordOf, IsUnreadWord};

use crate::number::number_in;
use oci_types::{NameFault, RepoName, Token};
use registry_model::{Level, Quota};
use registry_orders::{Change, Form, Held, Listing, Order, Shown};
use std::alloc::{AllocError, Global};

/// Why a line is not read.
#[derive(Clone, Copy, Debug, PartialEq, Eq)]
pub enum Unread {
    /// No order has this line.
    Malformed,
    /// Memory was wanting.
    Memory,
}

impl From<AllocError> for Unread {
    ghost use Rattle.std.specs.Prelude.{◌≡◌};
    ghost use Rattle.order_texts.specs.declared.reading.Unread.{Unread};

    ghost from_gives = { λ _ unread. unread ≡ Unread.Memory };

    fn from(_: AllocError) -> Unread {
        Unread::Memory
    }
}

impl From<NameFault> for Unread {
    ghost use Rattle.std.specs.Prelude.{◌≡◌};
    ghost use Rattle.order_texts.specs.Reading.{unread_of};

    ghost from_gives = { λ fault unread. unread ≡ unread_of fault };

    fn from(fault: NameFault) -> Unread {
        match fault {
            NameFault::Memory => Unread::Memory,
            _ => Unread::Malformed,
        }
    }
}

/// The parts of a text between spaces.
fn words_in<'a>(alloc: Global, text: &'a str) -> Result<Vec<&'a str>, AllocError>
    ensures { IfOk result (λ words. map (λ word. word.now) words.items
        ≡ slice_split (λ b. b == space) text.now) }
{
    text.split(' ').collect(alloc)
}

/// The level of a number.
fn level_in(text: &str) -> Result<Level, Unread>
    ensures read { IfOk result (λ level. text.now ≡ digit_of level) }
    ensures refused { IfErr result (λ unread. (unread ≡ Unread.Malformed)
        × ((level : Level) → ¬ (text.now ≡ digit_of level))) }
{
    match text {
        "1" => Ok(Level::Pull),
        "2" => Ok(Level::Push),
        "3" => Ok(Level::Delete),
        _ => Err(Unread::Malformed),
    }
}

/// The form of a list.
fn form_in(text: &str) -> Result<Form, Unread>
    ensures read { IfOk result (λ form. text.now ≡ form_word form) }
    ensures refused { IfErr result (λ unread. (unread ≡ Unread.Malformed)
        × ((form : Form) → ¬ (text.now ≡ form_word form))) }
{
    match text {
        "lines" => Ok(Form::Lines),
        "json" => Ok(Form::Json),
        _ => Err(Unread::Malformed),
    }
}

/// What is listed of a repository.
fn held_in(text: &str) -> Result<Held, Unread>
    ensures read { IfOk result (λ what. text.now ≡ held_word what) }
    ensures refused { IfErr result (λ unread. (unread ≡ Unread.Malformed)
        × ((what : Held) → ¬ (text.now ≡ held_word what))) }
{
    match text {
        "tags" => Ok(Held::Tags),
        "blobs" => Ok(Held::Blobs),
        "unnamed" => Ok(Held::Unnamed),
        _ => Err(Unread::Malformed),
    }
}

/// How much of a token is shown.
fn shown_in(text: &str) -> Result<Shown, Unread>
    ensures read { IfOk result (λ shown. text.now ≡ shown_word shown) }
    ensures refused { IfErr result (λ unread. (unread ≡ Unread.Malformed)
        × ((shown : Shown) → ¬ (text.now ≡ shown_word shown))) }
{
    match text {
        "beginning" => Ok(Shown::Beginning),
        "whole" => Ok(Shown::Whole),
        _ => Err(Unread::Malformed),
    }
}

/// The name of a repository, or none.
fn name_in(alloc: Global, text: &str) -> Result<Option<RepoName>, Unread>
    ensures read { IfOk result (IsWordOf IsProperName text.now) }
    ensures refused { IfErr result (IsUnreadWord IsProperName text.now) }
{
    match text {
        "*" => Ok(None),
        _ => Ok(Some(RepoName::parse(alloc, text)?)),
    }
}

/// A token, or none.
fn token_in(alloc: Global, text: &str) -> Result<Option<Token>, Unread>
    ensures read { IfOk result (IsWordOf IsProperToken text.now) }
    ensures refused { IfErr result (IsUnreadWord IsProperToken text.now) }
{
    match text {
        "*" => Ok(None),
        _ => Ok(Some(Token::parse(alloc, text)?)),
    }
}

/// The quota of a number of bytes.
#[tactic(auto, using(crate::proofs::NumberLemmas::quota_is_small, crate::proofs::NumberLemmas::decimal_same))]
fn quota_in(text: &str) -> Option<Quota>
    ensures { MatchOption result ((quota : Quota) → ¬ (text.now ≡ decimal quota.bytes))
        (λ quota. text.now ≡ decimal quota.bytes) }
{
    match number_in(text) {
        Some(bytes) => Quota::new(bytes),
        None => None,
    }
}

/// The order of one word.
fn order_alone(word: &str) -> Result<Order, Unread>
    ensures read { IfOk result (AreWordsOf (word.now ∷ [])) }
    ensures refused { IfErr result (AreUnread (word.now ∷ [])) }
{
    match word {
        "usage" => Ok(Order::Usage),
        "clear" => Ok(Order::Change(Change::Clear)),
        _ => Err(Unread::Malformed),
    }
}

/// The order of a word and a name, or a token.
fn order_of_one(alloc: Global, word: &str, last: &str) -> Result<Order, Unread>
    ensures read { IfOk result (AreWordsOf (word.now ∷ last.now ∷ [])) }
    ensures refused { IfErr result (AreUnread (word.now ∷ last.now ∷ [])) }
{
    match word {
        "drop" => Ok(Order::Change(Change::DropRepo {
            name: RepoName::parse(alloc, last)?,
        })),
        "sessions" => Ok(Order::Change(Change::DropSessions {
            name: RepoName::parse(alloc, last)?,
        })),
        "prune" => Ok(Order::Change(Change::Prune {
            name: RepoName::parse(alloc, last)?,
        })),
        "revoke" => Ok(Order::Change(Change::RevokeAll {
            token: Token::parse(alloc, last)?,
        })),
        _ => Err(Unread::Malformed),
    }
}

/// The order of two words behind `list`.
fn list_of_one(form: &str, what: &str) -> Result<Order, Unread>
    ensures read { IfOk result (AreWordsOf (codes "list" ∷ form.now ∷ what.now ∷ [])) }
    ensures refused { IfErr result (AreUnread (codes "list" ∷ form.now ∷ what.now ∷ [])) }
{
    match what {
        "repos" => Ok(Order::List {
            listing: Listing::Repos,
            form: form_in(form)?,
        }),
        _ => Err(Unread::Malformed),
    }
}

/// The order of three words behind `list`.
fn list_of_repo(alloc: Global, form: &str, what: &str, name: &str) -> Result<Order, Unread>
    ensures read { IfOk result (AreWordsOf (codes "list" ∷ form.now ∷ what.now ∷ name.now ∷ [])) }
    ensures refused { IfErr result (AreUnread (codes "list" ∷ form.now ∷ what.now ∷ name.now ∷ [])) }
{
    let form = form_in(form)?;
    let what = held_in(what)?;
    let name = RepoName::parse(alloc, name)?;
    Ok(Order::List {
        listing: Listing::InRepo { name, what },
        form,
    })
}

/// The order of three words behind `list`, a form and `grants`.
fn list_of_grants(
    alloc: Global,
    form: &str,
    shown: &str,
    name: &str,
    token: &str,
) -> Result<Order, Unread>
    ensures read { IfOk result (AreWordsOf (codes "list" ∷ form.now ∷ codes "grants" ∷ shown.now
        ∷ name.now ∷ token.now ∷ [])) }
    ensures refused { IfErr result (AreUnread (codes "list" ∷ form.now ∷ codes "grants" ∷ shown.now
        ∷ name.now ∷ token.now ∷ [])) }
{
    let form = form_in(form)?;
    let shown = shown_in(shown)?;
    let name = name_in(alloc, name)?;
    let token = token_in(alloc, token)?;
    Ok(Order::List {
        listing: Listing::Grants { name, token, shown },
        form,
    })
}

/// The order of a word, a name and a quota or a token, or of two words behind `list`.
fn order_of_two(alloc: Global, word: &str, name: &str, last: &str) -> Result<Order, Unread>
    ensures read { IfOk result (AreWordsOf (word.now ∷ name.now ∷ last.now ∷ [])) }
    ensures refused { IfErr result (AreUnread (word.now ∷ name.now ∷ last.now ∷ [])) }
{
    match word {
        "repo" => Ok(Order::Change(Change::AddRepo {
            name: RepoName::parse(alloc, name)?,
            quota: quota_in(last).ok_or(Unread::Malformed)?,
        })),
        "quota" => Ok(Order::Change(Change::SetQuota {
            name: RepoName::parse(alloc, name)?,
            quota: quota_in(last).ok_or(Unread::Malformed)?,
        })),
        "revoke" => Ok(Order::Change(Change::Revoke {
            token: Token::parse(alloc, last)?,
            name: RepoName::parse(alloc, name)?,
        })),
        "list" => list_of_one(name, last),
        _ => Err(Unread::Malformed),
    }
}

/// The order of a word, a name, a level and a token, or of three words behind `list`.
fn order_of_three(
    alloc: Global,
    word: &str,
    name: &str,
    level: &str,
    token: &str,
) -> Result<Order, Unread>
    ensures read { IfOk result (AreWordsOf (word.now ∷ name.now ∷ level.now ∷ token.now ∷ [])) }
    ensures refused { IfErr result (AreUnread (word.now ∷ name.now ∷ level.now ∷ token.now ∷ [])) }
{
    match word {
        "grant" => Ok(Order::Change(Change::Grant {
            token: Token::parse(alloc, token)?,
            name: RepoName::parse(alloc, name)?,
            level: level_in(level)?,
        })),
        "list" => list_of_repo(alloc, name, level, token),
        _ => Err(Unread::Malformed),
    }
}

/// The order of five words behind `list`.
fn order_of_five(
    alloc: Global,
    word: &str,
    form: &str,
    what: &str,
    shown: &str,
    name: &str,
    token: &str,
) -> Result<Order, Unread>
    ensures read { IfOk result (AreWordsOf (word.now ∷ form.now ∷ what.now ∷ shown.now
        ∷ name.now ∷ token.now ∷ [])) }
    ensures refused { IfErr result (AreUnread (word.now ∷ form.now ∷ what.now ∷ shown.now
        ∷ name.now ∷ token.now ∷ [])) }
{
    match (word, what) {
        ("list", "grants") => list_of_grants(alloc, form, shown, name, token),
        _ => Err(Unread::Malformed),
    }
}

/// The order that the words spell.
fn order_in(alloc: Global, words: &[&str]) -> Result<Order, Unread>
    ensures read { IfOk result (AreWordsOf (map (λ word. word.now) words.now)) }
    ensures refused { IfErr result (AreUnread (map (λ word. word.now) words.now)) }
{
    match words {
        [word] => order_alone(word),
        [word, last] => order_of_one(alloc, word, last),
        [word, name, last] => order_of_two(alloc, word, name, last),
        [word, name, level, token] => order_of_three(alloc, word, name, level, token),
        [word, form, what, shown, name, token] => {
            order_of_five(alloc, word, form, what, shown, name, token)
        }
        _ => Err(Unread::Malformed),
    }
}

/// The order that a line spells, without the line's end. `Malformed` where it spells none.
pub fn read_order(alloc: Global, line: &[u8]) -> Result<Order, Unread>
    ensures read { IfOk result (Spells line.now) }
    ensures refused { IfErr result (IsUnread line.now) }
{
    let Ok(text) = str::from_utf8(line) else {
        return Err(Unread::Malformed);
    };
    let words = words_in(alloc, text)?;
    order_in(alloc, words.as_slice())
}
