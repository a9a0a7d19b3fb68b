ghost use Rattle.std.specs.Prelude.{◌≡◌, Some, IfOk, IfErr, codes};
ghost use Rattle.clap.specs.Words.{found_of, rows_of, one_of};
ghost use Rattle.registry_orders.specs.Failures.{IsOfWords};
ghost use Rattle.registry_orders.specs.Options.{IsNumberOf, IsLevelOf};
ghost use Rattle.registry_orders.specs.Orders.{HasValue, HasToken, IsNameIf, IsTokenIf, IsCommandOf, IsTokenOrderIn, IsOrderIn};
ghost use Rattle.registry_orders.specs.Orders.{order_with};

use crate::failure::Failure;
use crate::given::{is_given, number_given, text_given};
use crate::listing::{Form, Listing, Shown, form_in, held_in, shown_in};
use crate::options::{level_numbered, name_of, token_of};
use crate::tokens::is_token_given;
use clap::ArgMatches;
use oci_types::{RepoName, Token};
use registry_model::{AdminCommand, Level, Quota};
use std::alloc::Global;

/// A change to a registry over a database that the administrator orders (profile).
pub enum Change {
    /// Makes an empty repository.
    AddRepo {
        name: RepoName,
        quota: Quota,
    },
    /// Sets a repository's quota.
    SetQuota {
        name: RepoName,
        quota: Quota,
    },
    /// Takes a repository away, with every level on it.
    DropRepo {
        name: RepoName,
    },
    /// Ends every open upload session of a repository.
    DropSessions {
        name: RepoName,
    },
    /// Takes away the blobs of a repository that none of its manifests names.
    Prune {
        name: RepoName,
    },
    /// Gives a token a level on a repository.
    Grant {
        token: Token,
        name: RepoName,
        level: Level,
    },
    /// Takes a token's level on a repository away.
    Revoke {
        token: Token,
        name: RepoName,
    },
    /// Takes every level of a token away, on whatever repositories.
    RevokeAll {
        token: Token,
    },
    /// Frees what no repository holds any more.
    Clear,
}

impl Drop for Change {
    fn drop(self) {
        match self {
            Change::AddRepo { name: _, quota: _ } => {}
            Change::SetQuota { name: _, quota: _ } => {}
            Change::DropRepo { name: _ } => {}
            Change::DropSessions { name: _ } => {}
            Change::Prune { name: _ } => {}
            Change::Grant {
                token: _,
                name: _,
                level: _,
            } => {}
            Change::Revoke { token: _, name: _ } => {}
            Change::RevokeAll { token: _ } => {}
            Change::Clear => {}
        }
    }
}

/// What the administrator orders of a registry over a database.
pub enum Order {
    Change(Change),
    /// Asks what each repository holds and may hold.
    Usage,
    /// Asks for a list.
    List { listing: Listing, form: Form },
}

impl Drop for Order {
    fn drop(self) {
        match self {
            Order::Change(_) => {}
            Order::Usage => {}
            Order::List {
                listing: _,
                form: _,
            } => {}
        }
    }
}

/// An order but for its token.
pub enum TokenOrder {
    /// Gives a token a level on a repository.
    Grant {
        name: RepoName,
        level: Level,
    },
    /// Takes a token's level on a repository away.
    Revoke {
        name: RepoName,
    },
    /// Takes every level of a token away, on whatever repositories.
    RevokeAll,
    /// Asks for a list of a token's levels, on one repository or on all.
    Grants {
        name: Option<RepoName>,
        shown: Shown,
        form: Form,
    },
}

impl Drop for TokenOrder {
    fn drop(self) {
        match self {
            TokenOrder::Grant { name: _, level: _ } => {}
            TokenOrder::Revoke { name: _ } => {}
            TokenOrder::RevokeAll => {}
            TokenOrder::Grants {
                name: _,
                shown: _,
                form: _,
            } => {}
        }
    }
}

impl TokenOrder {
    /// The order with its token.
    pub fn with(self, token: Token) -> Order
        ensures { result ≡ order_with self token }
    {
        match self {
            TokenOrder::Grant { name, level } => {
                Order::Change(Change::Grant { token, name, level })
            }
            TokenOrder::Revoke { name } => Order::Change(Change::Revoke { token, name }),
            TokenOrder::RevokeAll => Order::Change(Change::RevokeAll { token }),
            TokenOrder::Grants { name, shown, form } => Order::List {
                listing: Listing::Grants {
                    name,
                    token: Some(token),
                    shown,
                },
                form,
            },
        }
    }
}

impl Change {
    /// The command that says the same.
    pub fn command(&self) -> AdminCommand<'_>
        ensures { IsCommandOf self.now result }
    {
        match self {
            Change::AddRepo { name, quota } => AdminCommand::AddRepo {
                name,
                quota: *quota,
            },
            Change::SetQuota { name, quota } => AdminCommand::SetQuota {
                name,
                quota: *quota,
            },
            Change::DropRepo { name } => AdminCommand::DropRepo { name },
            Change::DropSessions { name } => AdminCommand::DropSessions { name },
            Change::Prune { name } => AdminCommand::Prune { name },
            Change::Grant { token, name, level } => AdminCommand::Grant {
                token,
                name,
                level: *level,
            },
            Change::Revoke { token, name } => AdminCommand::Revoke { token, name },
            Change::RevokeAll { token } => AdminCommand::RevokeAll { token },
            Change::Clear => AdminCommand::Clear,
        }
    }
}

/// The value of `--name`.
fn name_in(alloc: Global, matches: &ArgMatches) -> Result<RepoName, Failure>
    ensures found { IfOk result (λ name. HasValue (rows_of (found_of matches.now)) (codes "name") name) }
    ensures refused { IfErr result IsOfWords }
{
    match text_given(matches, "name") {
        Some(text) => name_of(alloc, text),
        None => Err(Failure::InvalidOptions),
    }
}

/// The value of `--name`; none where it is not given.
fn name_if(alloc: Global, matches: &ArgMatches) -> Result<Option<RepoName>, Failure>
    ensures found { IfOk result (IsNameIf (rows_of (found_of matches.now))) }
    ensures refused { IfErr result IsOfWords }
{
    match text_given(matches, "name") {
        Some(text) => Ok(Some(name_of(alloc, text)?)),
        None => Ok(None),
    }
}

/// The value of `--token`, which is the token itself.
fn token_in(alloc: Global, matches: &ArgMatches) -> Result<Token, Failure>
    ensures found { IfOk result (HasToken (rows_of (found_of matches.now))) }
    ensures refused { IfErr result IsOfWords }
{
    match (
        text_given(matches, "token"),
        text_given(matches, "token-file"),
    ) {
        (Some(text), None) if text != "-" => token_of(alloc, text),
        _ => Err(Failure::InvalidOptions),
    }
}

/// The same; none where no token is given.
fn token_if(alloc: Global, matches: &ArgMatches) -> Result<Option<Token>, Failure>
    ensures found { IfOk result (IsTokenIf (rows_of (found_of matches.now))) }
    ensures refused { IfErr result IsOfWords }
{
    if is_token_given(matches) {
        Ok(Some(token_in(alloc, matches)?))
    } else {
        Ok(None)
    }
}

/// The value of `--quota`, in bytes.
fn quota_in(matches: &ArgMatches) -> Result<Quota, Failure>
    ensures found { IfOk result (λ quota.
        IsNumberOf (one_of (codes "quota") (rows_of (found_of matches.now))) quota.bytes) }
    ensures refused { IfErr result IsOfWords }
{
    let bytes = number_given(matches, "quota")?;
    Quota::new(bytes).ok_or(Failure::InvalidOptions)
}

/// The value of `--level`.
fn level_in(matches: &ArgMatches) -> Result<Level, Failure>
    ensures found { IfOk result (IsLevelOf (one_of (codes "level") (rows_of (found_of matches.now)))) }
    ensures refused { IfErr result IsOfWords }
{
    let number = number_given(matches, "level")?;
    level_numbered(number).ok_or(Failure::InvalidOptions)
}

/// The order of a subcommand that names a repository and a quota.
fn order_of_quota(alloc: Global, word: &str, matches: &ArgMatches) -> Result<Order, Failure>
    ensures read { IfOk result (IsOrderIn word.now (rows_of (found_of matches.now))) }
    ensures refused { IfErr result IsOfWords }
{
    let name = name_in(alloc, matches)?;
    let quota = quota_in(matches)?;
    match word {
        "repo" => Ok(Order::Change(Change::AddRepo { name, quota })),
        "quota" => Ok(Order::Change(Change::SetQuota { name, quota })),
        _ => Err(Failure::InvalidOptions),
    }
}

/// The order of a subcommand that names a repository alone.
fn order_of_name(alloc: Global, word: &str, matches: &ArgMatches) -> Result<Order, Failure>
    ensures read { IfOk result (IsOrderIn word.now (rows_of (found_of matches.now))) }
    ensures refused { IfErr result IsOfWords }
{
    let name = name_in(alloc, matches)?;
    match word {
        "drop" => Ok(Order::Change(Change::DropRepo { name })),
        "sessions" => Ok(Order::Change(Change::DropSessions { name })),
        "prune" if !is_given(matches, "dry-run") => Ok(Order::Change(Change::Prune { name })),
        _ => Err(Failure::InvalidOptions),
    }
}

/// Reads an order but for its token, as `read_order` does.
pub fn read_token_order(
    alloc: Global,
    word: &str,
    matches: &ArgMatches,
) -> Result<TokenOrder, Failure>
    ensures read { IfOk result (IsTokenOrderIn word.now (rows_of (found_of matches.now))) }
    ensures refused { IfErr result IsOfWords }
{
    match (word, name_if(alloc, matches)?) {
        ("grant", Some(name)) => Ok(TokenOrder::Grant {
            name,
            level: level_in(matches)?,
        }),
        ("revoke", Some(name)) => Ok(TokenOrder::Revoke { name }),
        ("revoke", None) => Ok(TokenOrder::RevokeAll),
        ("grants", name) => Ok(TokenOrder::Grants {
            name,
            shown: shown_in(matches),
            form: form_in(matches),
        }),
        _ => Err(Failure::InvalidOptions),
    }
}

/// The order of a subcommand that wants a token, which is on the command line.
fn order_of_token(alloc: Global, word: &str, matches: &ArgMatches) -> Result<Order, Failure>
    ensures read { IfOk result (IsOrderIn word.now (rows_of (found_of matches.now))) }
    ensures refused { IfErr result IsOfWords }
{
    let order = read_token_order(alloc, word, matches)?;
    let token = token_in(alloc, matches)?;
    Ok(order.with(token))
}

/// The list of a subcommand that lists what a repository holds.
fn list_of_repo(alloc: Global, word: &str, matches: &ArgMatches) -> Result<Order, Failure>
    ensures read { IfOk result (IsOrderIn word.now (rows_of (found_of matches.now))) }
    ensures refused { IfErr result IsOfWords }
{
    let what = held_in(word, matches)?;
    let name = name_in(alloc, matches)?;
    Ok(Order::List {
        listing: Listing::InRepo { name, what },
        form: form_in(matches),
    })
}

/// The list of the levels of tokens, of one that is on the command line or of all.
fn list_of_grants(alloc: Global, matches: &ArgMatches) -> Result<Order, Failure>
    ensures read { IfOk result (IsOrderIn (codes "grants") (rows_of (found_of matches.now))) }
    ensures refused { IfErr result IsOfWords }
{
    let name = name_if(alloc, matches)?;
    let token = token_if(alloc, matches)?;
    Ok(Order::List {
        listing: Listing::Grants {
            name,
            token,
            shown: shown_in(matches),
        },
        form: form_in(matches),
    })
}

/// Reads what a subcommand of the administrator orders: its word, and the values of its options. A
/// name that is none is told before a token that is none. `InvalidOptions` is answered to a word that
/// is no such subcommand, or where a value is missing or out of its range, which `clap` has told then.
pub fn read_order(alloc: Global, word: &str, matches: &ArgMatches) -> Result<Order, Failure>
    ensures read { IfOk result (IsOrderIn word.now (rows_of (found_of matches.now))) }
    ensures refused { IfErr result IsOfWords }
{
    match word {
        "usage" => Ok(Order::Usage),
        "clear" => Ok(Order::Change(Change::Clear)),
        "repos" => Ok(Order::List {
            listing: Listing::Repos,
            form: form_in(matches),
        }),
        "tags" | "blobs" => list_of_repo(alloc, word, matches),
        "prune" if is_given(matches, "dry-run") => list_of_repo(alloc, word, matches),
        "grants" => list_of_grants(alloc, matches),
        "grant" | "revoke" => order_of_token(alloc, word, matches),
        "repo" | "quota" => order_of_quota(alloc, word, matches),
        _ => order_of_name(alloc, word, matches),
    }
}
