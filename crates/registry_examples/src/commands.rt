use anyhow::{Result, bail};
use oci_types::{Fault, RepoName, Token};
use registry_model::{AdminCommand, AdminFault, Keeper, Level, Quota, Usage};
use registry_service::Service;
use std::alloc::Global;
use std::fmt::{Debug, Write};

/// Carries out `repo NAME QUOTA`, `quota NAME QUOTA`, `drop NAME`, `sessions NAME`, `prune NAME`,
/// `grant TOKEN NAME LEVEL`, `revoke TOKEN NAME`, `revoke TOKEN` or `clear`. The inner result is the
/// registry's.
fn carry_out<K: Keeper>(
    alloc: Global,
    registry: &mut Service<K>,
    words: &[&str],
) -> Result<Result<(), AdminFault>> {
    let named = Named::read(alloc, words)?;
    let command = command_in(words, &named)?;
    Ok(registry.admin(alloc, &command))
}

/// What a command names.
#[derive(Drop)]
enum Named {
    Nothing,
    Token(Token),
    Repo(RepoName),
    Both(Token, RepoName),
}

impl Named {
    fn read(alloc: Global, words: &[&str]) -> Result<Named> {
        match words {
            ["revoke", token] => Ok(Named::Token(token_of(alloc, token)?)),
            ["grant" | "revoke", token, name, ..] => {
                let token = token_of(alloc, token)?;
                Ok(Named::Both(token, name_of(alloc, name)?))
            }
            [_, name, ..] => Ok(Named::Repo(name_of(alloc, name)?)),
            _ => Ok(Named::Nothing),
        }
    }
}

fn command_in<'a>(words: &[&str], named: &'a Named) -> Result<AdminCommand<'a>> {
    match (named, words) {
        (Named::Nothing, ["clear"]) => Ok(AdminCommand::Clear),
        (Named::Token(token), _) => Ok(AdminCommand::RevokeAll { token }),
        (Named::Both(token, name), ["revoke", _, _]) => Ok(AdminCommand::Revoke { token, name }),
        (Named::Both(token, name), ["grant", _, _, level]) => {
            let level = level_of(level)?;
            Ok(AdminCommand::Grant { token, name, level })
        }
        (Named::Repo(name), [word, _, quota @ ..]) => command_on(word, name, quota),
        _ => bail!("no such command"),
    }
}

/// `repo`, `quota`, `drop`, `sessions` or `prune` on a repository.
fn command_on<'a>(word: &str, name: &'a RepoName, quota: &[&str]) -> Result<AdminCommand<'a>> {
    if let [quota] = quota {
        let quota = quota_of(quota)?;
        return match word {
            "repo" => Ok(AdminCommand::AddRepo { name, quota }),
            "quota" => Ok(AdminCommand::SetQuota { name, quota }),
            _ => bail!("no such command"),
        };
    }
    match word {
        "drop" if quota.is_empty() => Ok(AdminCommand::DropRepo { name }),
        "sessions" if quota.is_empty() => Ok(AdminCommand::DropSessions { name }),
        "prune" if quota.is_empty() => Ok(AdminCommand::Prune { name }),
        _ => bail!("no such command"),
    }
}

/// Asks what a repository holds, or carries out a command of `carry_out`; and what is answered: nothing where
/// a command is done, else why it is refused.
///
/// `usage NAME` is the number of bytes that are used, `holds NAME` all numbers of its row of `usage`, and
/// `levels NAME` each token and its level.
pub fn commanded<K: Keeper>(
    alloc: Global,
    registry: &mut Service<K>,
    command: &str,
) -> Result<String> {
    let words: Vec<&str> = command.split(' ').collect(alloc)?;
    match words.as_slice() {
        ["usage", name] => usage_line(alloc, usage_of(alloc, registry, name)?, false),
        ["holds", name] => usage_line(alloc, usage_of(alloc, registry, name)?, true),
        ["levels", name] => levels_on(alloc, registry, name),
        words => match carry_out(alloc, registry, words)? {
            Ok(()) => Ok(String::new(alloc)),
            Err(fault) => refused(alloc, &fault),
        },
    }
}

/// Why something is refused.
pub fn refused<F: Debug>(alloc: Global, fault: &F) -> Result<String> {
    Ok(format!(in alloc; "{fault:?}\r\n")?)
}

/// What the registry tells of a repository.
fn usage_of<K: Keeper>(
    alloc: Global,
    registry: &mut Service<K>,
    name: &str,
) -> Result<Result<Usage, Fault>> {
    let usages = match registry.usages(alloc) {
        Ok(usages) => usages,
        Err(fault) => return Ok(Err(fault)),
    };
    for (repository, usage) in usages.iter() {
        if repository.as_str() == name {
            return Ok(Ok(*usage));
        }
    }
    bail!("`{name}` is no repository")
}

/// What is told of a repository: the number of bytes that are used, or all numbers.
fn usage_line(alloc: Global, usage: Result<Usage, Fault>, is_whole: bool) -> Result<String> {
    let Usage {
        used,
        quota,
        blobs,
        manifests,
        tags,
        sessions,
    } = match usage {
        Ok(usage) => usage,
        Err(fault) => return refused(alloc, &fault),
    };
    if !is_whole {
        return Ok(format!(in alloc; "{used} bytes\r\n")?);
    }
    Ok(format!(in alloc;
        "{used} of {quota} bytes, {blobs} blobs, {manifests} manifests, {tags} tags, {sessions} sessions\r\n"
    )?)
}

/// A line for each token with a level on a repository.
fn levels_on<K: Keeper>(alloc: Global, registry: &mut Service<K>, name: &str) -> Result<String> {
    let name = name_of(alloc, name)?;
    match registry.levels(alloc, &name) {
        Ok(levels) => level_lines(alloc, levels.as_slice()),
        Err(fault) => refused(alloc, &fault),
    }
}

fn level_lines(alloc: Global, levels: &[(Token, Level)]) -> Result<String> {
    let mut text = String::new(alloc);
    for (token, level) in levels.iter() {
        let token = token.as_str();
        write!(text, "{token} {level:?}\r\n")?;
    }
    Ok(text)
}

fn name_of(alloc: Global, text: &str) -> Result<RepoName> {
    match RepoName::parse(alloc, text) {
        Ok(name) => Ok(name),
        Err(_) => bail!("`{text}` is no repository name"),
    }
}

fn token_of(alloc: Global, text: &str) -> Result<Token> {
    match Token::parse(alloc, text) {
        Ok(token) => Ok(token),
        Err(_) => bail!("`{text}` is no token"),
    }
}

fn quota_of(text: &str) -> Result<Quota> {
    match Quota::new(text.parse()?) {
        Some(quota) => Ok(quota),
        None => bail!("`{text}` is no quota"),
    }
}

fn level_of(text: &str) -> Result<Level> {
    match text {
        "pull" => Ok(Level::Pull),
        "push" => Ok(Level::Push),
        "delete" => Ok(Level::Delete),
        _ => bail!("`{text}` is no level"),
    }
}
