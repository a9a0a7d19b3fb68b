//! What is wrong, noted.
ghost use Rattle.std.specs.Prelude.{◌≡◌, ◌++◌, [], IfOk, IfErr, OnOk, MatchResult};
ghost use Rattle.std.specs.List.{cons_option};
ghost use Rattle.registry_checking.specs.declared.wrong.Wrong.TheVariants as wrong;
ghost use Rattle.registry_checking.specs.Wrongs.{IsNoted};

use crate::wrong::{Flaw, Wrong};
use oci_types::{Digest, Fault, RepoName};
use std::alloc::AllocError;

fn named(repo: &RepoName, digest: &Digest, flaw: Flaw) -> Result<Wrong, AllocError>
    ensures { IfOk result (λ found. found ≡ wrong.Content repo.now digest.now flaw) }
{
    Ok(Wrong::Content {
        repo: repo.clone()?,
        digest: digest.clone()?,
        flaw,
    })
}

/// What is wrong with a blob or a manifest.
pub fn content(repo: &RepoName, digest: &Digest, flaw: Flaw) -> Result<Option<Wrong>, Fault>
    ensures { MatchResult result (λ found. found ≡ Some (wrong.Content repo.now digest.now flaw))
        (λ fault. fault ≡ Fault.Memory) }
{
    match named(repo, digest, flaw) {
        Ok(found) => Ok(Some(found)),
        Err(_) => Err(Fault::Memory),
    }
}

/// Notes that a blob or a manifest cannot be read, where that is the fault; want of memory for the note
/// leaves it out.
fn note_unreadable(wrongs: &mut Vec<Wrong>, repo: &RepoName, digest: &Digest, fault: Fault) -> Fault
    ensures told { result ≡ fault }
{
    if fault == Fault::Storage {
        if let Ok(found) = content(repo, digest, Flaw::Unreadable) {
            let _ = push(wrongs, found);
        }
    }
    fault
}

/// Puts what was found behind the others, if something was.
fn push(wrongs: &mut Vec<Wrong>, found: Option<Wrong>) -> Result<(), Fault>
    ensures added { OnOk result (wrongs.new.items ≡ wrongs.old.items ++ cons_option found []) }
    ensures memory { IfErr result (λ fault. fault ≡ Fault.Memory) }
{
    let Some(found) = found else {
        return Ok(());
    };
    match wrongs.push(found) {
        Ok(()) => Ok(()),
        Err(_) => Err(Fault::Memory),
    }
}

/// Puts what a read found behind the others, if something was; the read's fault is passed on.
pub fn push_read(wrongs: &mut Vec<Wrong>, found: Result<Option<Wrong>, Fault>) -> Result<(), Fault>
    ensures { IsNoted found result wrongs.old.items wrongs.new.items }
{
    push(wrongs, found?)
}

/// Notes what a read of a blob or a manifest found, or that it cannot be read.
pub fn note(
    wrongs: &mut Vec<Wrong>,
    repo: &RepoName,
    digest: &Digest,
    found: Result<Option<Wrong>, Fault>,
) -> Result<(), Fault>
    ensures { IsNoted found result wrongs.old.items wrongs.new.items }
{
    match found {
        Ok(found) => push(wrongs, found),
        Err(fault) => Err(note_unreadable(wrongs, repo, digest, fault)),
    }
}
