use crate::{Level, Quota};
use oci_types::{RepoName, Token};

/// What an administrator asks for (profile).
#[derive(Clone, Copy)]
pub enum AdminCommand<'a> {
    /// Makes an empty repository.
    AddRepo {
        name: &'a RepoName,
        quota: Quota,
    },
    /// Sets a repository's quota, which may lie below what it uses.
    SetQuota {
        name: &'a RepoName,
        quota: Quota,
    },
    /// Takes a repository away, with what it holds and every level on it.
    DropRepo {
        name: &'a RepoName,
    },
    /// Gives a token a level on a repository, in the place of the one that it has.
    Grant {
        token: &'a Token,
        name: &'a RepoName,
        level: Level,
    },
    /// Takes a token's level on a repository away.
    Revoke {
        token: &'a Token,
        name: &'a RepoName,
    },
    /// Takes every level of a token away, on whatever repositories.
    RevokeAll {
        token: &'a Token,
    },
    /// Ends every open upload session of a repository; their numbers are not used again.
    DropSessions {
        name: &'a RepoName,
    },
    /// Takes away the blobs of a repository that none of its manifests names. An upload in flight may lose
    /// blobs whose manifest has not come yet.
    Prune {
        name: &'a RepoName,
    },
    /// Frees what no repository holds any more; no reply changes by it.
    Clear,
}

/// Why a command was not carried out; all but `Storage` change nothing.
#[derive(Clone, Copy, Debug)]
pub enum AdminFault {
    NoRepo,
    NoGrant,
    RepoThere,
    Memory,
    Storage,
}
