//! The making of the tables.
ghost use Rattle.std.specs.Prelude.{◌≡◌, IsTrue, OnOk, IfErr, map};
ghost use Rattle.sqlite.specs.State.{HasCleanDisk, KeepsCommit, Survives};
ghost use Rattle.sqlite.specs.Held.{state};
ghost use Rattle.store_schema.specs.Schema.{no_schema, fresh_schema};
ghost use Rattle.store_schema.specs.Making.{IsEmptyWith, IsOther};
ghost use Rattle.store_schema.specs.OldSchema.{old_schema, both_schema};
ghost use Rattle.store_schema.specs.Beside.{Comes, registry_names, registry_tables};
ghost use Rattle.store_schema.specs.Beside.{names_of_two, tables_of_two};
ghost use Rattle.store_schema.specs.PackSchema.{pack_schema, pack_names, pack_ones};
ghost use Rattle.store_schema.specs.InTurn.{RanEach, FailedAmong};

use sqlite::{Alter, Error, Transaction};

const VERSION: &str = "CREATE TABLE registry_schema (version INTEGER NOT NULL) STRICT";

const REPOS: &str =
    "CREATE TABLE registry_repos (name TEXT NOT NULL PRIMARY KEY, quota INTEGER NOT NULL, \
     last_session INTEGER NOT NULL) STRICT";

const GRANTS: &str = "CREATE TABLE registry_grants (token TEXT NOT NULL, repo TEXT NOT NULL \
     REFERENCES registry_repos (name) ON DELETE CASCADE, level INTEGER NOT NULL, \
     PRIMARY KEY (token, repo)) STRICT";

const TAGS: &str = "CREATE TABLE registry_tags (repo TEXT NOT NULL \
     REFERENCES registry_repos (name) ON DELETE CASCADE, tag TEXT NOT NULL, digest TEXT NOT NULL, \
     PRIMARY KEY (repo, tag)) STRICT";

const CONTENTS: &str =
    "CREATE TABLE registry_contents (id INTEGER PRIMARY KEY, sha256 TEXT NOT NULL, \
     size INTEGER NOT NULL, bytes BLOB NOT NULL) STRICT";

const BLOB_LINKS: &str = "CREATE TABLE registry_blob_links (repo TEXT NOT NULL \
     REFERENCES registry_repos (name) ON DELETE CASCADE, digest TEXT NOT NULL, size INTEGER NOT NULL, \
     content INTEGER NOT NULL, PRIMARY KEY (repo, digest)) STRICT";

const MANIFEST_LINKS: &str = "CREATE TABLE registry_manifest_links (repo TEXT NOT NULL \
     REFERENCES registry_repos (name) ON DELETE CASCADE, digest TEXT NOT NULL, size INTEGER NOT NULL, \
     kind INTEGER NOT NULL, subject TEXT, content INTEGER NOT NULL, PRIMARY KEY (repo, digest)) STRICT";

const UPLOADS: &str = "CREATE TABLE registry_uploads (repo TEXT NOT NULL \
     REFERENCES registry_repos (name) ON DELETE CASCADE, number INTEGER NOT NULL, \
     size INTEGER NOT NULL, PRIMARY KEY (repo, number)) STRICT";

const PIECES: &str = "CREATE TABLE registry_pieces (repo TEXT NOT NULL \
     REFERENCES registry_repos (name) ON DELETE CASCADE, number INTEGER NOT NULL, \
     start INTEGER NOT NULL, size INTEGER NOT NULL, content INTEGER NOT NULL, \
     PRIMARY KEY (repo, number, start)) STRICT";

const SHA256_INDEX: &str = "CREATE INDEX registry_contents_sha256 ON registry_contents (sha256)";

const SUBJECT_INDEX: &str =
    "CREATE INDEX registry_manifest_links_subject ON registry_manifest_links (repo, subject)";

const PACK: &str = "CREATE TABLE registry_pack (mark BLOB NOT NULL, age INTEGER NOT NULL) STRICT";

const PLACED_CONTENTS: &str =
    "CREATE TABLE registry_contents (id INTEGER PRIMARY KEY, sha256 TEXT NOT NULL, \
     size INTEGER NOT NULL) STRICT";

const PLACES: &str =
    "CREATE TABLE registry_places (content INTEGER NOT NULL, start INTEGER NOT NULL, \
     size INTEGER NOT NULL, at INTEGER NOT NULL, PRIMARY KEY (content, start)) STRICT";

const BLOB_CONTENT_INDEX: &str =
    "CREATE INDEX registry_blob_links_content ON registry_blob_links (content)";

const MANIFEST_CONTENT_INDEX: &str =
    "CREATE INDEX registry_manifest_links_content ON registry_manifest_links (content)";

const PIECE_CONTENT_INDEX: &str =
    "CREATE INDEX registry_pieces_content ON registry_pieces (content)";

/// What makes a registry's tables and indexes, in this order.
static ALL: [&str; 11] = [
    VERSION,
    REPOS,
    GRANTS,
    TAGS,
    CONTENTS,
    BLOB_LINKS,
    MANIFEST_LINKS,
    UPLOADS,
    PIECES,
    SHA256_INDEX,
    SUBJECT_INDEX,
];

/// Those of them that only schema 2 has.
static OF_TWO: [&str; 7] = [
    CONTENTS,
    BLOB_LINKS,
    MANIFEST_LINKS,
    UPLOADS,
    PIECES,
    SHA256_INDEX,
    SUBJECT_INDEX,
];

/// What makes those of a registry whose contents stand in a pack.
static OF_PACK: [&str; 16] = [
    VERSION,
    REPOS,
    GRANTS,
    TAGS,
    PACK,
    PLACED_CONTENTS,
    PLACES,
    BLOB_LINKS,
    MANIFEST_LINKS,
    UPLOADS,
    PIECES,
    SHA256_INDEX,
    SUBJECT_INDEX,
    BLOB_CONTENT_INDEX,
    MANIFEST_CONTENT_INDEX,
    PIECE_CONTENT_INDEX,
];

/// Executes the texts one after the other, up to the first that fails.
fn execute_each<S: Alter>(tx: &mut Transaction<'_, S>, texts: &[&str]) -> Result<(), Error>
    requires { HasCleanDisk (state S.Store tx.old.conn.now)
        → IsTrue (state S.Store tx.old.conn.now).in_transaction }
    ensures ran { HasCleanDisk (state S.Store tx.new.conn.now)
        → OnOk result
        (RanEach S.Store (map (λ text. text.now) texts.now) tx.old.conn.now tx.new.conn.now) }
    ensures failed { HasCleanDisk (state S.Store tx.new.conn.now)
        → IfErr result
        (FailedAmong S.Store (map (λ text. text.now) texts.now) tx.old.conn.now tx.new.conn.now) }
    ensures inside { HasCleanDisk (state S.Store tx.new.conn.now)
        → OnOk result (IsTrue (state S.Store tx.new.conn.now).in_transaction) }
    ensures kept { HasCleanDisk (state S.Store tx.new.conn.now)
        → KeepsCommit (state S.Store tx.old.conn.now) (state S.Store tx.new.conn.now) }
    ensures same_reference { tx.new.conn.ghost_name ≡ tx.old.conn.ghost_name }
    ensures survives { Survives (state S.Store tx.old.conn.now) (state S.Store tx.new.conn.now) (λ _. ⊥) }
{
    for text in texts {
        tx.execute(text, &[])?;
    }
    Ok(())
}

/// Makes the tables and indexes of a registry. In an empty database they are the schema, with no row.
/// Whatever the database has, all that it had stays, and none of their names was taken; where one is, or
/// another failure comes, the caller gives the transaction up.
pub fn make_tables<S: Alter>(tx: &mut Transaction<'_, S>) -> Result<(), Error>
    requires { HasCleanDisk (state S.Store tx.old.conn.now)
        → IsTrue (state S.Store tx.old.conn.now).in_transaction }
    ensures made { HasCleanDisk (state S.Store tx.new.conn.now)
        → IsEmptyWith no_schema (state S.Store tx.old.conn.now).now
        → OnOk result (IsEmptyWith fresh_schema (state S.Store tx.new.conn.now).now) }
    ensures unmade { HasCleanDisk (state S.Store tx.new.conn.now)
        → IsEmptyWith no_schema (state S.Store tx.old.conn.now).now → IfErr result IsOther }
    ensures comes { HasCleanDisk (state S.Store tx.new.conn.now)
        → OnOk result
        (Comes registry_names registry_tables (state S.Store tx.old.conn.now).now
        (state S.Store tx.new.conn.now).now) }
    ensures inside { HasCleanDisk (state S.Store tx.new.conn.now)
        → OnOk result (IsTrue (state S.Store tx.new.conn.now).in_transaction) }
    ensures kept { HasCleanDisk (state S.Store tx.new.conn.now)
        → KeepsCommit (state S.Store tx.old.conn.now) (state S.Store tx.new.conn.now) }
    ensures same_reference { tx.new.conn.ghost_name ≡ tx.old.conn.ghost_name }
    ensures survives { Survives (state S.Store tx.old.conn.now) (state S.Store tx.new.conn.now) (λ _. ⊥) }
{
    execute_each(tx, &ALL)
}

/// Makes the tables and indexes that only schema 2 has, without rows, beside what there is, which stays: over
/// schema 1 the schema is then that of both. None of their names was taken; where one is, or another failure
/// comes, the caller gives the transaction up.
pub fn make_tables_of_two<S: Alter>(tx: &mut Transaction<'_, S>) -> Result<(), Error>
    requires { HasCleanDisk (state S.Store tx.old.conn.now)
        → IsTrue (state S.Store tx.old.conn.now).in_transaction }
    ensures both { HasCleanDisk (state S.Store tx.new.conn.now)
        → (state S.Store tx.old.conn.now).now.schema ≡ old_schema
        → OnOk result ((state S.Store tx.new.conn.now).now.schema ≡ both_schema) }
    ensures unmade { HasCleanDisk (state S.Store tx.new.conn.now)
        → (state S.Store tx.old.conn.now).now.schema ≡ old_schema → IfErr result IsOther }
    ensures comes { HasCleanDisk (state S.Store tx.new.conn.now)
        → OnOk result
        (Comes names_of_two tables_of_two (state S.Store tx.old.conn.now).now
        (state S.Store tx.new.conn.now).now) }
    ensures inside { HasCleanDisk (state S.Store tx.new.conn.now)
        → OnOk result (IsTrue (state S.Store tx.new.conn.now).in_transaction) }
    ensures kept { HasCleanDisk (state S.Store tx.new.conn.now)
        → KeepsCommit (state S.Store tx.old.conn.now) (state S.Store tx.new.conn.now) }
    ensures same_reference { tx.new.conn.ghost_name ≡ tx.old.conn.ghost_name }
    ensures survives { Survives (state S.Store tx.old.conn.now) (state S.Store tx.new.conn.now) (λ _. ⊥) }
{
    execute_each(tx, &OF_TWO)
}

/// Makes the tables and indexes of a registry whose contents stand in a pack. In an empty database they are
/// the schema, with no row. Whatever the database has, all that it had stays, and none of their names was
/// taken; where one is, or another failure comes, the caller gives the transaction up.
pub fn make_tables_of_pack<S: Alter>(tx: &mut Transaction<'_, S>) -> Result<(), Error>
    requires { HasCleanDisk (state S.Store tx.old.conn.now)
        → IsTrue (state S.Store tx.old.conn.now).in_transaction }
    ensures made { HasCleanDisk (state S.Store tx.new.conn.now)
        → IsEmptyWith no_schema (state S.Store tx.old.conn.now).now
        → OnOk result (IsEmptyWith pack_schema (state S.Store tx.new.conn.now).now) }
    ensures unmade { HasCleanDisk (state S.Store tx.new.conn.now)
        → IsEmptyWith no_schema (state S.Store tx.old.conn.now).now → IfErr result IsOther }
    ensures comes { HasCleanDisk (state S.Store tx.new.conn.now)
        → OnOk result
        (Comes pack_names pack_ones (state S.Store tx.old.conn.now).now
        (state S.Store tx.new.conn.now).now) }
    ensures inside { HasCleanDisk (state S.Store tx.new.conn.now)
        → OnOk result (IsTrue (state S.Store tx.new.conn.now).in_transaction) }
    ensures kept { HasCleanDisk (state S.Store tx.new.conn.now)
        → KeepsCommit (state S.Store tx.old.conn.now) (state S.Store tx.new.conn.now) }
    ensures same_reference { tx.new.conn.ghost_name ≡ tx.old.conn.ghost_name }
    ensures survives { Survives (state S.Store tx.old.conn.now) (state S.Store tx.new.conn.now) (λ _. ⊥) }
{
    execute_each(tx, &OF_PACK)
}
