ghost use Rattle.std.specs.Prelude.{◌≡◌, IfSome, IfOk, IfErr, map};
ghost use Rattle.registry_orders.specs.Failures.{IsOfWords};
ghost use Rattle.registry_orders.specs.Levels.{level_numbered};
ghost use Rattle.registry_orders.specs.Options.{EachPair, IsDecimal, SpellsRepo, SpellsGrant, SpellsSetup};
ghost use Rattle.registry_orders.specs.Splitting.{SplitsRepo, SplitsGrant};

use crate::failure::{Failure, of_text};
use oci_types::{RepoName, Token};
use registry_model::{Level, Quota};
use std::alloc::Global;

/// A repository that a registry begins with.
pub struct RepoOption {
    pub name: RepoName,
    pub quota: Quota,
}

// (written out, here and below, so that where one is dropped it is by a call)
impl Drop for RepoOption {
    fn drop(self) {
        let RepoOption { name: _, quota: _ } = self;
    }
}

/// A grant that a registry begins with.
pub struct GrantOption {
    pub token: Token,
    pub name: RepoName,
    pub level: Level,
}

impl Drop for GrantOption {
    fn drop(self) {
        let GrantOption {
            token: _,
            name: _,
            level: _,
        } = self;
    }
}

/// What a registry over memory begins with: repositories, then grants, each in the order given.
pub struct Setup {
    pub repos: Vec<RepoOption>,
    pub grants: Vec<GrantOption>,
}

impl Drop for Setup {
    fn drop(self) {
        let Setup {
            repos: _,
            grants: _,
        } = self;
    }
}

/// The number that decimal digits write; leading zeros are allowed.
fn decimal(text: &str) -> Option<u64>
    ensures { IfSome result (IsDecimal text.now) }
{
    // `parse` takes a plus before the digits.
    if text.starts_with('+') {
        return None;
    }
    text.parse().ok()
}

/// The level of a number: 1 pull, 2 push, 3 delete.
pub fn level_numbered(number: u64) -> Option<Level>
    ensures { result ≡ level_numbered number }
{
    match number {
        1 => Some(Level::Pull),
        2 => Some(Level::Push),
        3 => Some(Level::Delete),
        _ => None,
    }
}

/// `NAME=QUOTA`, split at the last `=`.
fn split_repo(text: &str) -> Option<(&str, Quota)>
    ensures { IfSome result (SplitsRepo text.entry) }
{
    let (name, quota) = text.rsplit_once('=')?;
    let quota = Quota::new(decimal(quota)?)?;
    Some((name, quota))
}

/// `TOKEN=NAME=LEVEL`, split at the last two `=`.
fn split_grant(text: &str) -> Option<(&str, &str, Level)>
    ensures { IfSome result (SplitsGrant text.entry) }
{
    let (front, level) = text.rsplit_once('=')?;
    let (token, name) = front.rsplit_once('=')?;
    let level = level_numbered(decimal(level)?)?;
    Some((token, name, level))
}

/// The name that the text is.
pub fn name_of(alloc: Global, text: &str) -> Result<RepoName, Failure>
    ensures is { IfOk result (λ name. name ≡ text.now) }
    ensures refused { IfErr result IsOfWords }
{
    match RepoName::parse(alloc, text) {
        Ok(name) => Ok(name),
        Err(fault) => Err(of_text(fault, Failure::InvalidName)),
    }
}

/// The token that the text is.
pub fn token_of(alloc: Global, text: &str) -> Result<Token, Failure>
    ensures is { IfOk result (λ token. token ≡ text.now) }
    ensures refused { IfErr result IsOfWords }
{
    match Token::parse(alloc, text) {
        Ok(token) => Ok(token),
        Err(fault) => Err(of_text(fault, Failure::InvalidToken)),
    }
}

/// Whether the texts of `--repo` and of `--grant` split, each with a number in its range.
fn all_split(repos: &[&str], grants: &[&str]) -> bool {
    repos.iter().all(|text| split_repo(text).is_some())
        && grants.iter().all(|text| split_grant(text).is_some())
}

/// Looks whether the names of grants are some.
fn check_names(alloc: Global, grants: &[&str]) -> Result<(), Failure>
    ensures refused { IfErr result IsOfWords }
{
    for text in grants {
        let Some((_, name, _)) = split_grant(text) else {
            return Err(Failure::InvalidOptions);
        };
        name_of(alloc, name)?;
    }
    Ok(())
}

/// The repository of a text of `--repo`.
fn read_repo(alloc: Global, text: &str) -> Result<RepoOption, Failure>
    ensures read { IfOk result (SpellsRepo text.now) }
    ensures refused { IfErr result IsOfWords }
{
    let Some((name, quota)) = split_repo(text) else {
        return Err(Failure::InvalidOptions);
    };
    let name = name_of(alloc, name)?;
    Ok(RepoOption { name, quota })
}

/// The grant of a text of `--grant`.
fn read_grant(alloc: Global, text: &str) -> Result<GrantOption, Failure>
    ensures read { IfOk result (SpellsGrant text.now) }
    ensures refused { IfErr result IsOfWords }
{
    let Some((token, name, level)) = split_grant(text) else {
        return Err(Failure::InvalidOptions);
    };
    let token = token_of(alloc, token)?;
    let name = name_of(alloc, name)?;
    Ok(GrantOption { token, name, level })
}

/// The repositories of the texts of `--repo`.
fn read_repos(alloc: Global, texts: &[&str]) -> Result<Vec<RepoOption>, Failure>
    ensures read { IfOk result (λ repos.
        EachPair SpellsRepo (map (λ text. text.now) texts.now) repos.items) }
    ensures refused { IfErr result IsOfWords }
{
    let mut repos = Vec::new(alloc);
    for text in texts {
        let repo = read_repo(alloc, text)?;
        repos.push(repo)?;
    }
    Ok(repos)
}

/// The grants of the texts of `--grant`.
fn read_grants(alloc: Global, texts: &[&str]) -> Result<Vec<GrantOption>, Failure>
    ensures read { IfOk result (λ grants.
        EachPair SpellsGrant (map (λ text. text.now) texts.now) grants.items) }
    ensures refused { IfErr result IsOfWords }
{
    let mut grants = Vec::new(alloc);
    for text in texts {
        let grant = read_grant(alloc, text)?;
        grants.push(grant)?;
    }
    Ok(grants)
}

impl Setup {
    /// Reads the values of `--repo` and `--grant`. What does not split or has no number in range is
    /// told first, then what is no name, then what is no token.
    pub fn read(alloc: Global, repos: &[&str], grants: &[&str]) -> Result<Setup, Failure>
        ensures spells { IfOk result
            (SpellsSetup (map (λ text. text.now) repos.now) (map (λ text. text.now) grants.now)) }
        ensures refused { IfErr result IsOfWords }
    {
        if !all_split(repos, grants) {
            return Err(Failure::InvalidOptions);
        }
        check_names(alloc, grants)?;
        let repos = read_repos(alloc, repos)?;
        let grants = read_grants(alloc, grants)?;
        Ok(Setup { repos, grants })
    }
}
