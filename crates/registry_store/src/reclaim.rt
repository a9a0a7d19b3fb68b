//! Contents that nothing names go from where bytes are kept.
ghost use Rattle.registry_store.specs.Calls.{CrashLeaves, Frees, Makes, StaysOnMemory};
ghost use Rattle.registry_store.specs.Kept.{IsClean};

use oci_types::Fault;
use sqlite::{Alter, Connection};
use std::alloc::Global;
use store_bytes::{Contents, TableContents};

/// Where bytes of contents are, and how their space comes back.
pub trait Reclaim: Contents {
    /// Frees each content that no blob, manifest or upload session names: exactly the others stay, and the
    /// world does not change. A failure frees nothing.
    fn clear<S: Alter>(&mut self, alloc: Global, conn: &mut Connection<S>) -> Result<(), Fault>
        ensures made { Makes S.Store Self.Contents (conn.old, self.old) (conn.new, self.new) result (λ w. w) }
        ensures freed { Frees S.Store Self.Contents (conn.old, self.old) (conn.new, self.new) result }
        ensures memory { StaysOnMemory S.Store Self.Contents (conn.old, self.old) (conn.new, self.new)
            result }
        ensures crash { CrashLeaves S.Store Self.Contents (conn.old, self.old) (conn.new, self.new) result
            (λ w. w) }
        ensures clean { IsClean S.Store Self.Contents (conn.new, self.new)
            → IsClean S.Store Self.Contents (conn.old, self.old) };
}

impl Reclaim for TableContents {
    fn clear<S: Alter>(&mut self, alloc: Global, conn: &mut Connection<S>) -> Result<(), Fault> {
        store_writes::clear(alloc, conn)
    }
}
