//! Each change is one transaction.
ghost use Rattle.std.specs.Prelude.{◌≡◌, Ok, Err, MatchResult};
ghost use Rattle.sqlite.specs.State.{HasCleanDisk, KeepsCommit};
ghost use Rattle.sqlite.specs.Held.{state};
ghost use Rattle.store_contents.specs.Layouts.{Layout};
ghost use Rattle.store_statements.specs.Between.{CommitsStep, CrashMakes, GoesBack, StaysOnMemory};
ghost use Rattle.store_statements.specs.Clauses.{Lasts, LastsUncommitted, TablesHave};
ghost use Rattle.store_statements.specs.Held.{IsReady, held};
ghost use Rattle.store_statements.specs.StepsFrom.{StepsFrom};
ghost use Rattle.store_writes.specs.Changing.{Asks, Fits, Makes, Suits};

use crate::change::Change;
use crate::content_clearing::clear_contents;
use crate::deletions::{take_links_to, take_manifest};
use crate::grant_changes::put_level;
use crate::last_numbers::put_last;
use crate::manifest_puts::{add_tagged, put_tag_if};
use crate::pack_clearing::clear_placed;
use crate::quota_changes::put_quota;
use crate::repo_removal::drop_rows;
use crate::session_changing::change_session;
use oci_types::Fault;
use sqlite::{Alter, Connection, Transaction};
use store_statements::alone;
use store_statements::blob_storing::store_blob;
use store_statements::blobs::{add_blob_link, take_blob_link};
use store_statements::grants::{take_grant, take_token_grants};
use store_statements::tags::take_tag;
use store_statements::telling::checked;

/// Makes a change inside a transaction.
fn work<S: Alter>(tx: &mut Transaction<'_, S>, change: Change<'_>) -> Result<(), Fault>
    requires fits { Fits change }
    ensures made { (l : Layout) → Suits l change.entry
        → StepsFrom S.Store l tx.old.conn.now tx.new.conn.now result (Asks change.entry)
        (Makes l change.entry) }
    ensures kept { (l : Layout) → Suits l change.entry → HasCleanDisk (state S.Store tx.new.conn.now)
        → IsReady l (state S.Store tx.old.conn.now)
        → Asks change.entry (held l (state S.Store tx.old.conn.now))
        → KeepsCommit (state S.Store tx.old.conn.now) (state S.Store tx.new.conn.now) }
    ensures same_reference { tx.new.conn.ghost_name ≡ tx.old.conn.ghost_name }
    ensures survives { LastsUncommitted S.Store tx.old.conn.now tx.new.conn.now }
{
    match change {
        Change::AddBlob {
            alloc,
            repo,
            digest,
            source,
        } => store_blob(alloc, tx, repo, digest, source),
        Change::AddLink { repo, digest, link } => add_blob_link(
            tx,
            repo,
            digest,
            link.size,
            link.content,
        ),
        Change::TakeBlob { repo, digest } => take_blob_link(tx, repo, digest),
        Change::TakeBlobs { repo, digests } => take_links_to(tx, repo, digests),
        Change::AddManifest {
            alloc,
            repo,
            digest,
            source,
            manifest,
            tag,
        } => add_tagged(alloc, tx, repo, digest, source, manifest, tag),
        Change::SetTag { repo, tag, digest } => put_tag_if(tx, repo, tag, digest),
        Change::TakeManifest { repo, digest } => take_manifest(tx, repo, digest),
        Change::TakeTag { repo, tag } => take_tag(tx, repo, tag),
        Change::SetLevel { token, repo, level } => put_level(tx, token, repo, level),
        Change::TakeLevel { token, repo } => take_grant(tx, token, repo),
        Change::TakeLevels { token } => take_token_grants(tx, token),
        Change::SetRepo { repo, quota } => put_quota(tx, repo, quota),
        Change::SetLast { repo, number } => put_last(tx, repo, number),
        Change::DropRepo { repo } => drop_rows(tx, repo),
        Change::Session(session) => change_session(tx, session),
        Change::Clear { alloc } => clear_contents(alloc, tx),
        Change::ClearPack { alloc } => clear_placed(alloc, tx),
    }
}

/// Makes a change in a transaction of its own. A failure is told as the store's caller sees it.
pub(crate) fn make<S: Alter>(conn: &mut Connection<S>, change: Change<'_>) -> Result<(), Fault>
    requires fits { Fits change }
    ensures made { (l : Layout) → Suits l change.entry → TablesHave S.Store l conn.old (Asks change.entry)
        → CommitsStep S.Store l conn.old conn.new result (Makes l change.entry) }
    ensures memory { (l : Layout) → Suits l change.entry → TablesHave S.Store l conn.old (Asks change.entry)
        → StaysOnMemory S.Store l conn.old conn.new result }
    ensures back { (l : Layout) → Suits l change.entry → TablesHave S.Store l conn.old (Asks change.entry)
        → GoesBack S.Store l conn.old conn.new result }
    ensures crash { (l : Layout) → Suits l change.entry → TablesHave S.Store l conn.old (Asks change.entry)
        → CrashMakes S.Store l conn.old conn.new result (Makes l change.entry) }
    ensures survives { Lasts S.Store conn.old conn.new }
{
    let done = alone!(conn, tx, work(&mut tx, change));
    checked(conn, done)
}

/// The answer to a change that was made: whether bytes came by it.
pub(crate) fn tell_came(made: Result<(), Fault>, came: bool) -> Result<bool, Fault>
    ensures { MatchResult made (λ _. result ≡ Ok came) (λ fault. result ≡ Err fault) }
{
    match made {
        Ok(()) => Ok(came),
        Err(fault) => Err(fault),
    }
}
