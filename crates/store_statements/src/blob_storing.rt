//! A blob's bytes and the link to them.
ghost use Rattle.std.specs.Prelude.{◌≡◌, ◌<◌, ◌^◌, true, find, None};
ghost use Rattle.oci_types.specs.Digest.{matches};
ghost use Rattle.store_contents.specs.Layouts.{Layout};
ghost use Rattle.store_places.specs.Source.{Fits, IfBytes, Suits, runs_in, size_in, text_in};
ghost use Rattle.store_statements.specs.Keys.{has_key};
ghost use Rattle.store_statements.specs.Clauses.{KeepsInside, LastsUncommitted};
ghost use Rattle.store_statements.specs.Steps.{BlobStored};
ghost use Rattle.store_statements.specs.StepsFrom.{StepsFrom};

use crate::blobs::add_blob_link;
use crate::contents::keep_matching;
use oci_types::Fault;
use sqlite::{Alter, Transaction};
use std::alloc::Global;
use store_places::Source;

/// Puts a blob in that the repository has not.
pub fn store_blob<S: Alter>(
    alloc: Global,
    tx: &mut Transaction<'_, S>,
    repo: &str,
    digest: &str,
    source: Source<'_>,
) -> Result<(), Fault>
    requires right { Fits source }
    requires fits { size_in source < 2 ^ 63 }
    requires matching { IfBytes (λ bytes. matches digest.now bytes ≡ true) source }
    ensures stored { (l : Layout) → Suits l source.entry
        → StepsFrom S.Store l tx.old.conn.now tx.new.conn.now result
        (λ t. find (has_key repo.now digest.now) t.blobs ≡ None)
        (λ t u. BlobStored t u repo.now digest.now (text_in l source.entry) (runs_in source.entry)) }
    ensures kept { (l : Layout) → Suits l source.entry
        → KeepsInside S.Store l tx.old.conn.now tx.new.conn.now }
    ensures same_reference { tx.new.conn.ghost_name ≡ tx.old.conn.ghost_name }
    ensures survives { LastsUncommitted S.Store tx.old.conn.now tx.new.conn.now }
{
    match keep_matching(alloc, tx, digest, source) {
        Ok(content) => add_blob_link(tx, repo, digest, source.len() as u64, content),
        Err(fault) => Err(fault),
    }
}
