//! The options of subcommands: each with its word, what it takes and its help.

/// The largest number that an option takes: also the largest quota, and the most connections.
const MOST: u64 = 9_223_372_036_854_775_807;

/// The fewest bytes that may be given for requests and replies in hand: the largest of each.
const LEAST_BUFFER: u64 = 134_217_728;

/// The fewest bytes that may be given for staged bodies: a largest blob.
const LEAST_STAGED: u64 = 67_108_864;

/// What an option takes. Values are called in the help by the name that is given.
pub enum Takes<'a> {
    /// Nothing: it is given or not.
    Nothing,
    /// One value.
    One(&'a str),
    /// One value, and the option must be given.
    Required(&'a str),
    /// One value, and the option may be given any number of times.
    Many(&'a str),
    /// A number from the least to the most, and the option must be given.
    Number {
        value: &'a str,
        least: u64,
        most: u64,
    },
    /// A number from the least to the most, which has a default.
    NumberOr {
        value: &'a str,
        least: u64,
        most: u64,
        default: &'a str,
    },
    /// A number from the least to the most, which may be left out.
    NumberIf {
        value: &'a str,
        least: u64,
        most: u64,
    },
}

/// An option of a subcommand.
pub struct SubOption<'a> {
    pub word: &'a str,
    pub takes: Takes<'a>,
    pub help: &'a str,
}

const DATABASE: SubOption<'static> = SubOption {
    word: "db",
    takes: Takes::One("PATH"),
    help: "The database file",
};

const DATABASE_WANTED: SubOption<'static> = SubOption {
    word: "db",
    takes: Takes::Required("PATH"),
    help: "The database file",
};

/// Of a registry that is made at a path where none is.
const LAYOUT: SubOption<'static> = SubOption {
    word: "layout",
    takes: Takes::One("LAYOUT"),
    help: "How a new registry keeps contents: tables (default), or beside, in PATH-contents",
};

const ORDERS: SubOption<'static> = SubOption {
    word: "orders",
    takes: Takes::One("PATH"),
    help: "The socket of a server that holds it",
};

const NAME: SubOption<'static> = SubOption {
    word: "name",
    takes: Takes::Required("NAME"),
    help: "The repository",
};

/// The name of a repository, which may be left out.
const NAME_IF: SubOption<'static> = SubOption {
    word: "name",
    takes: Takes::One("NAME"),
    help: "The repository; without it, all of them",
};

/// A token, on the command line or from elsewhere.
const TOKEN: SubOption<'static> = SubOption {
    word: "token",
    takes: Takes::One("TOKEN"),
    help: "The token, or - for a line of standard input; another that begins with - as --token=-x",
};

const TOKEN_FILE: SubOption<'static> = SubOption {
    word: "token-file",
    takes: Takes::One("PATH"),
    help: "A file, the first line of which is the token",
};

const JSON: SubOption<'static> = SubOption {
    word: "json",
    takes: Takes::Nothing,
    help: "As one JSON array",
};

/// Where clients log in.
const LOGIN: SubOption<'static> = SubOption {
    word: "login",
    takes: Takes::One("SCHEME"),
    help: "Change passwords for tokens at /token, for clients that come by http or https",
};

const HEALTH: SubOption<'static> = SubOption {
    word: "health",
    takes: Takes::Nothing,
    help: "Answer GET /healthz",
};

/// A registry that is served without a database.
const MEMORY: SubOption<'static> = SubOption {
    word: "memory",
    takes: Takes::Nothing,
    help: "Keep everything in memory",
};

/// What a registry in memory begins with.
const BEGIN_REPO: SubOption<'static> = SubOption {
    word: "repo",
    takes: Takes::Many("NAME=QUOTA"),
    help: "Make a repository with a quota in bytes",
};

const BEGIN_GRANT: SubOption<'static> = SubOption {
    word: "grant",
    takes: Takes::Many("TOKEN=NAME=LEVEL"),
    help: "Give a token a level on a repository: 1 pull, 2 push, 3 delete",
};

pub const STDIO: &[SubOption<'static>] = &[
    DATABASE,
    LAYOUT,
    MEMORY,
    BEGIN_REPO,
    BEGIN_GRANT,
    LOGIN,
    HEALTH,
];

/// Of one that serves connections within limits.
pub const SERVE: &[SubOption<'static>] = &[
    DATABASE,
    LAYOUT,
    MEMORY,
    BEGIN_REPO,
    BEGIN_GRANT,
    SubOption {
        word: "listen",
        takes: Takes::Required("ADDR"),
        help: "The address and port to listen on",
    },
    SubOption {
        word: "connections",
        takes: Takes::NumberOr {
            value: "N",
            least: 0,
            most: MOST,
            default: "9223372036854775807",
        },
        help: "End after so many connections",
    },
    SubOption {
        word: "at-once",
        takes: Takes::NumberOr {
            value: "N",
            least: 1,
            most: 65_536,
            default: "256",
        },
        help: "Serve so many at once",
    },
    SubOption {
        word: "buffer",
        takes: Takes::NumberOr {
            value: "BYTES",
            least: LEAST_BUFFER,
            most: MOST,
            default: "536870912",
        },
        help: "About how many bytes of requests and replies may be in hand",
    },
    SubOption {
        word: "staged",
        takes: Takes::NumberIf {
            value: "BYTES",
            least: LEAST_STAGED,
            most: MOST,
        },
        help: "How many bytes of uploads may be put aside; without it, half of the buffer",
    },
    SubOption {
        word: "idle",
        takes: Takes::NumberOr {
            value: "SECONDS",
            least: 1,
            most: 86_400,
            default: "60",
        },
        help: "Close one that says and takes nothing for so long",
    },
    SubOption {
        word: "orders",
        takes: Takes::One("PATH"),
        help: "Take orders at this socket",
    },
    SubOption {
        word: "log",
        takes: Takes::Nothing,
        help: "Say each request on standard error",
    },
    SubOption {
        word: "stop-at-eof",
        takes: Takes::Nothing,
        help: "End when the other end of standard input is closed",
    },
    LOGIN,
    HEALTH,
];

pub const STOP: &[SubOption<'static>] = &[SubOption {
    word: "orders",
    takes: Takes::Required("PATH"),
    help: "The socket at which it takes orders",
}];

/// Of one over a database that no server holds.
pub const OVER_DATABASE: &[SubOption<'static>] = &[DATABASE_WANTED];

/// Of one that orders something, of a database or of the server that holds it.
pub const ORDERING: &[SubOption<'static>] = &[DATABASE, LAYOUT, ORDERS];

/// Of one over a repository.
pub const OVER_REPO: &[SubOption<'static>] = &[DATABASE, LAYOUT, ORDERS, NAME];

/// Of one that sets the repository's quota.
pub const OVER_QUOTA: &[SubOption<'static>] = &[
    DATABASE,
    LAYOUT,
    ORDERS,
    NAME,
    SubOption {
        word: "quota",
        takes: Takes::Number {
            value: "BYTES",
            least: 0,
            most: MOST,
        },
        help: "The most bytes that the repository may use",
    },
];

/// Of one that takes away what no manifest names, or lists it.
pub const PRUNE: &[SubOption<'static>] = &[
    DATABASE,
    LAYOUT,
    ORDERS,
    NAME,
    SubOption {
        word: "dry-run",
        takes: Takes::Nothing,
        help: "List them, and take none away",
    },
];

/// Of one that lists something.
pub const LISTING: &[SubOption<'static>] = &[DATABASE, LAYOUT, ORDERS, JSON];

/// Of one that lists something of a repository.
pub const LISTING_OF_REPO: &[SubOption<'static>] = &[DATABASE, LAYOUT, ORDERS, NAME, JSON];

/// Of one that lists the levels of one token or of all, on one repository or on all.
pub const LISTING_OF_GRANTS: &[SubOption<'static>] = &[
    DATABASE,
    LAYOUT,
    ORDERS,
    TOKEN,
    TOKEN_FILE,
    NAME_IF,
    SubOption {
        word: "show-tokens",
        takes: Takes::Nothing,
        help: "Show tokens whole, and not their first four characters",
    },
    JSON,
];

pub const GRANT: &[SubOption<'static>] = &[
    DATABASE,
    LAYOUT,
    ORDERS,
    TOKEN,
    TOKEN_FILE,
    NAME,
    SubOption {
        word: "level",
        takes: Takes::Number {
            value: "LEVEL",
            least: 1,
            most: 3,
        },
        help: "1 pull, 2 push, 3 delete",
    },
];

/// Of one that takes a level away, or all of a token's levels.
pub const REVOKE: &[SubOption<'static>] = &[DATABASE, LAYOUT, ORDERS, TOKEN, TOKEN_FILE, NAME_IF];
