//! The subcommands, in a table: each with its word, its help and its options. The table is a static: a
//! constant is written out, row by row, in each function that names it.

use crate::options::{
    GRANT, LISTING, LISTING_OF_GRANTS, LISTING_OF_REPO, ORDERING, OVER_DATABASE, OVER_QUOTA,
    OVER_REPO, PRUNE, REVOKE, SERVE, STDIO, STOP, SubOption,
};

/// A subcommand of the program.
pub struct Subcommand<'a> {
    pub word: &'a str,
    pub about: &'a str,
    /// In the order of its help.
    pub options: &'a [SubOption<'a>],
}

const PRUNING: &str =
    "Take away the blobs of a repository that none of its manifests names; clear then frees their bytes";

/// In the order of the program's help.
pub static SUBCOMMANDS: [Subcommand<'static>; 18] = [
    Subcommand {
        word: "serve",
        about: "Serve connections",
        options: SERVE,
    },
    Subcommand {
        word: "stdio",
        about: "Serve standard input as one connection",
        options: STDIO,
    },
    Subcommand {
        word: "repo",
        about: "Make a repository",
        options: OVER_QUOTA,
    },
    Subcommand {
        word: "quota",
        about: "Set a repository's quota",
        options: OVER_QUOTA,
    },
    Subcommand {
        word: "drop",
        about: "Drop a repository with its grants",
        options: OVER_REPO,
    },
    Subcommand {
        word: "sessions",
        about: "End a repository's open uploads",
        options: OVER_REPO,
    },
    Subcommand {
        word: "prune",
        about: PRUNING,
        options: PRUNE,
    },
    Subcommand {
        word: "repos",
        about: "List the repositories",
        options: LISTING,
    },
    Subcommand {
        word: "tags",
        about: "List the tags of a repository, and the digests that they name",
        options: LISTING_OF_REPO,
    },
    Subcommand {
        word: "blobs",
        about: "List the blobs of a repository, their sizes, and the manifests that name them",
        options: LISTING_OF_REPO,
    },
    Subcommand {
        word: "grants",
        about: "List the levels of tokens on repositories",
        options: LISTING_OF_GRANTS,
    },
    Subcommand {
        word: "grant",
        about: "Give a token a level on a repository",
        options: GRANT,
    },
    Subcommand {
        word: "revoke",
        about: "Take a token's level on a repository away; without --name, all its levels",
        options: REVOKE,
    },
    Subcommand {
        word: "clear",
        about: "Free what no repository holds any more",
        options: ORDERING,
    },
    Subcommand {
        word: "usage",
        about: "List what the repositories hold",
        options: ORDERING,
    },
    Subcommand {
        word: "check",
        about: "Read all that a database holds, and say what is wrong",
        options: OVER_DATABASE,
    },
    Subcommand {
        word: "migrate",
        about: "Take over a database of schema 1, once",
        options: OVER_DATABASE,
    },
    Subcommand {
        word: "stop",
        about: "End a server",
        options: STOP,
    },
];
