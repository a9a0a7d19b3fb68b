//! Bytes of contents in the tables.
ghost use Rattle.std.specs.Prelude.{◌≡◌, ⊤, true};
ghost use Rattle.store_contents.specs.Layouts.{InTables};

use crate::contents::Contents;
use crate::staged::Staged;
use oci_types::Fault;
use sqlite::{Alter, Connection};
use std::alloc::Global;
use store_contents::{ContentId, read_bytes};
use store_statements::contents;
use store_statements::telling::checked;

/// The bytes of each content are a column of its row.
#[derive(Drop)]
pub struct TableContents;

impl Contents for TableContents {
    ghost use Rattle.store_bytes.specs.Lasting.{tables_last};

    ghost layout = { λ _. InTables };

    ghost may_leave = { λ _ l. l ≡ InTables };

    ghost is_clean = { λ _. true };

    ghost remembers = { λ _ _. ⊤ };

    ghost spares = { λ _ _. ⊤ };

    ghost owns = { λ _ _. ⊤ };

    ghost names = { λ _ _. ⊤ };

    ghost refuses = { λ _ _. ⊤ };

    ghost remembers_spared = { λ _ _ spared. spared };

    ghost lasts = { λ _ l same db _. tables_last l same db };

    fn are_in_tables(&self) -> bool {
        true
    }

    fn has_digest<S: Alter>(
        &self,
        conn: &mut Connection<S>,
        id: ContentId,
        digest: &str,
    ) -> Result<bool, Fault> {
        contents::has_digest(conn, id, digest)
    }

    fn read<S: Alter>(
        &mut self,
        alloc: Global,
        conn: &mut Connection<S>,
        id: ContentId,
    ) -> Result<Option<Vec<u8>>, Fault> {
        let found = read_bytes(alloc, conn, id);
        checked(conn, found)
    }

    fn stage(
        &mut self,
        _alloc: Global,
        _bytes: &[u8],
        _hash: Option<[u8; 32]>,
    ) -> Result<Staged, Fault> {
        Ok(Staged::InRow)
    }

    fn give_up(&mut self, _staged: Staged) {}
}
