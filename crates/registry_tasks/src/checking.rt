//! A registry in a database, looked at for what is wrong.
ghost use Rattle.std.specs.Prelude.{◌≡◌, ◌≤◌, ◌<◌, [], IfErr};
ghost use Rattle.registry_opening.specs.Openings.{between};
ghost use Rattle.registry_orders.specs.Outputs.{output};
ghost use Rattle.registry_tasks.specs.Checking.{Checks, IsOfCheck};
ghost use Rattle.registry_tasks.specs.Opened.{RunsCheck};

use crate::opened::{Done, end_at, fail_at};
use oci_types::Fault;
use registry_checking::{Watch, Wrong, look, write_wrongs};
use registry_model::Keeper;
use registry_opening::{Ended, Opener, Work};
use registry_orders::{Failure, Layout};
use std::alloc::Global;
use std::io::Write;

/// Looks for what is wrong, where nothing was found yet, and writes a line for each. `Damaged` where there is
/// one; where the storage fails, lines for what was found before.
fn tell_wrongs<K: Keeper, V: Watch, W: Write>(
    alloc: Global,
    watch: &V,
    keeper: &mut K,
    found: &mut Vec<Wrong>,
    out: &mut W,
) -> Result<(), Failure>
    requires none { found.old.items ≡ [] }
    ensures checks { K.is_honest keeper.new → Checks (K.kept keeper.old) result
        (output (W.contents out.old) (W.contents out.new)) (K.kept keeper.new) }
    ensures honest { K.is_honest keeper.new → K.is_honest keeper.old }
    ensures fails { IfErr result IsOfCheck }
{
    match look(alloc, watch, keeper, found) {
        Ok(()) => {}
        Err(Fault::Memory) => return Err(Failure::OutOfMemory),
        Err(Fault::Storage) => {
            // What was found before is told, as far as it can be.
            let _ = write_wrongs(out, found);
            return Err(Failure::StorageFailure);
        }
    }
    if found.is_empty() {
        return Ok(());
    }
    match write_wrongs(out, found) {
        Ok(()) => Err(Failure::Damaged),
        Err(_) => Err(Failure::ConnectionFailure),
    }
}

/// Writes a line for each thing that is wrong, likewise, and lets go what was found.
fn check_kept<K: Keeper, V: Watch, W: Write>(
    alloc: Global,
    watch: &V,
    keeper: &mut K,
    out: &mut W,
) -> Result<(), Failure>
    ensures checks { K.is_honest keeper.new → Checks (K.kept keeper.old) result
        (output (W.contents out.old) (W.contents out.new)) (K.kept keeper.new) }
    ensures honest { K.is_honest keeper.new → K.is_honest keeper.old }
    ensures fails { IfErr result IsOfCheck }
{
    let mut found = Vec::new(alloc);
    tell_wrongs(alloc, watch, keeper, &mut found, out)
}

/// What a registry holds, looked at.
#[derive(Drop)]
struct CheckWork<'v, 'o, V, W: Write> {
    alloc: Global,
    watch: &'v V,
    out: &'o mut W,
}

impl<'v, 'o, K: Keeper, V: Watch, W: Write> Work<K> for CheckWork<'v, 'o, V, W> {
    ghost use Rattle.std.specs.Prelude.{IfErr};
    ghost use Rattle.registry_tasks.specs.Checking.{Checks, IsOfCheck};

    type Told = Done;

    ghost does = { λ old s done new s'. Checks s done.ended
        (output (W.contents old.out.now) (W.contents new.out.now)) s' };

    ghost says = { λ old done new. (new.out.ghost_name ≡ old.out.ghost_name) × IfErr done.ended IsOfCheck };

    fn work(&mut self, kept: K) -> Ended<K, Done> {
        let mut keeper = kept;
        let ended = check_kept(self.alloc, self.watch, &mut keeper, self.out);
        let spent = keeper.spent();
        Ended {
            keeper,
            told: Done { ended, spent },
        }
    }
}

/// Opens the registry at a path, reads all that it holds, and writes a line for each thing that is wrong.
pub fn run_check<K: Keeper, O: Opener<K>, V: Watch, W: Write, E: Write>(
    alloc: Global,
    opener: &mut O,
    watch: &V,
    path: &str,
    out: &mut W,
    err: &mut E,
) -> u8
    ensures runs { RunsCheck (between K.is_honest K.kept O.opens (O.had opener.old) (O.had opener.new))
        path.now result (output (W.contents out.old) (W.contents out.new))
        (output (E.contents err.old) (E.contents err.new)) }
    ensures failed { 0 < result → 3 ≤ result }
    ensures status { result ≤ 4 }
{
    let mut work = CheckWork { alloc, watch, out };
    match opener.with_open(path, Layout::Tables, &mut work) {
        Ok(done) => end_at(opener, path, done, err),
        Err(failure) => fail_at(opener, path, failure, err),
    }
}
