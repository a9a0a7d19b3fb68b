ghost use Rattle.std.specs.Prelude.{◌≡◌, ℕ, List, true, false, IfOk, IfErr, MatchResult};
ghost use Rattle.registry_model.specs.Keeping.{Kept};
ghost use Rattle.registry_opening.specs.Openings.{Deed, between, Once, Never, TakesOver};
ghost use Rattle.registry_orders.specs.Failures.{IsOfOpening};

use crate::work::Work;
use registry_model::Keeper;
use registry_orders::{Cause, Failure, Layout};

/// What opens registries over databases; `K` is the keeper that an opening gives.
pub trait Opener<K: Keeper> {
    // The states in which a registry at a path may be found.
    ghost opens: { List ℕ → Kept → Type 0 };

    // These were done up to now, one after the other.
    ghost had: { Self → List (Deed K) → Type 0 };

    /// Opens the registry at a path, which stands as it was given, has the work done over it, and closes it:
    /// what was written is copied from the log into its database first; where that fails, the log beside it
    /// has it, as where a program is killed. A new one keeps its contents as `layout` says; one that is there
    /// is opened as what it is. An error is one of memory, storage or schema, or that the database is no
    /// registry, and then no work was done.
    fn with_open<W: Work<K>>(
        &mut self,
        path: &str,
        layout: Layout,
        work: &mut W,
    ) -> Result<W::Told, Failure>
        ensures worked { IfOk result (λ told.
            Once (between K.is_honest K.kept opens (had self.old) (had self.new)) path.now
            (λ s s'. W.does work.old s told work.new s')) }
        ensures says { IfOk result (λ told. W.says work.old told work.new) }
        ensures refused { IfErr result IsOfOpening }
        ensures never { IfErr result (λ failure.
            Never (between K.is_honest K.kept opens (had self.old) (had self.new))) }
        ensures undone { IfErr result (λ failure. work.new ≡ work.old) };

    /// Takes over the registry of schema 1 at a path, so that it can be opened; where it is of schema 2
    /// already, nothing is done. An error is as above.
    fn migrate(&mut self, path: &str) -> Result<(), Failure>
        ensures refused { IfErr result IsOfOpening }
        ensures moved { MatchResult result
            (λ done.
            TakesOver (between K.is_honest K.kept opens (had self.old) (had self.new)) path.now true)
            (λ failure.
            TakesOver (between K.is_honest K.kept opens (had self.old) (had self.new)) path.now false) };

    /// What is wrong with the path of a registry that failed, as far as it can be seen there afterwards,
    /// while it is not open. It is for a message alone.
    fn cause(&self, path: &str, failure: Failure) -> Option<Cause>;
}
