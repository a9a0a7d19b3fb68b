//! What is done over a registry that is opened for it: an order, one connection. And one that is taken over.
ghost use Rattle.std.specs.Prelude.{◌≡◌, ◌≢◌, ◌<◌, ◌≤◌, Err};
ghost use Rattle.registry_opening.specs.Openings.{between};
ghost use Rattle.registry_tasks.specs.Acts.{acts};
ghost use Rattle.registry_tasks.specs.Program.{streams};
ghost use Rattle.registry_tasks.specs.Opened.{RunsHere, RunsAt, RunsStored, EndsMigration};
ghost use Rattle.registry_tasks.specs.Telling.{SaysEnd};
ghost use Rattle.registry_orders.specs.Outputs.{output, IsSilent};

use crate::messenger::Messenger;
use crate::sending::send_order;
use crate::stdio::serve_stdio;
use order_carrying::{Ended as Carried, carry_out};
use registry_model::{Keeper, Settings};
use registry_opening::{Ended, Opener, Work};
use registry_orders::cause::say_at;
use registry_orders::{Failure, Layout, Order, Place};
use registry_service::Service;
use std::alloc::Global;
use std::io::{Read, Write};

/// What a task came to over a registry: what failed, if anything did, and whether the storage has.
#[derive(Clone, Copy)]
pub struct Done {
    pub ended: Result<(), Failure>,
    pub spent: bool,
}

/// Says why the registry at a path is not opened, and what is wrong with the path, where that can be seen;
/// gives the exit status.
pub(crate) fn fail_at<K: Keeper, O: Opener<K>, E: Write>(
    opener: &O,
    path: &str,
    failure: Failure,
    err: &mut E,
) -> u8
    ensures { SaysEnd (Err failure) path.now result (output (E.contents err.old) (E.contents err.new)) }
{
    say_at(err, failure, path, opener.cause(path, failure))
}

/// Says what failed over the registry at a path, if anything did; of one whose storage failed meanwhile, on a
/// line behind that, where it can be seen, what is wrong with its path. Gives the exit status.
pub(crate) fn end_at<K: Keeper, O: Opener<K>, E: Write>(
    opener: &O,
    path: &str,
    done: Done,
    err: &mut E,
) -> u8
    ensures { SaysEnd done.ended path.now result (output (E.contents err.old) (E.contents err.new)) }
{
    match done.ended {
        Ok(()) => 0,
        Err(failure) => {
            let is_storage = failure.status() == Failure::StorageFailure.status();
            let cause = if done.spent && is_storage {
                opener.cause(path, Failure::StorageFailure)
            } else {
                None
            };
            say_at(err, failure, path, cause)
        }
    }
}

/// An order that is carried out.
#[derive(Drop)]
struct OrderWork<'a, 'o, W: Write> {
    alloc: Global,
    order: &'a Order,
    out: &'o mut W,
}

impl<'a, 'o, K: Keeper, W: Write> Work<K> for OrderWork<'a, 'o, W> {
    ghost use Rattle.order_carrying.specs.Carrying.{CarriesOrder};
    ghost use Rattle.registry_tasks.specs.Opened.{EndsOrder};

    type Told = Done;

    ghost does = { λ old s done new s'. CarriesOrder s old.order.now done.ended
        (output (W.contents old.out.now) (W.contents new.out.now)) s' };

    ghost says = { λ old done new. (new.out.ghost_name ≡ old.out.ghost_name)
        × EndsOrder done.ended (output (W.contents old.out.now) (W.contents new.out.now)) };

    fn work(&mut self, kept: K) -> Ended<K, Done> {
        let Carried { keeper, carried } = carry_out(self.alloc, kept, self.order, self.out);
        let spent = keeper.spent();
        Ended {
            keeper,
            told: Done {
                ended: carried,
                spent,
            },
        }
    }
}

/// Opens the registry at a path, or makes one with this layout, and carries an order out over it.
fn run_order<K: Keeper, O: Opener<K>, W: Write, E: Write>(
    alloc: Global,
    opener: &mut O,
    path: &str,
    layout: Layout,
    order: &Order,
    out: &mut W,
    err: &mut E,
) -> u8
    ensures runs { RunsHere (between K.is_honest K.kept O.opens (O.had opener.old) (O.had opener.new))
        path.now order.now result (output (W.contents out.old) (W.contents out.new))
        (output (E.contents err.old) (E.contents err.new)) }
    ensures silent { 0 < result → result < 4
        → IsSilent (output (W.contents out.old) (W.contents out.new)) }
    ensures status { result ≤ 4 }
    ensures read { result ≢ 2 }
{
    let mut work = OrderWork { alloc, order, out };
    match opener.with_open(path, layout, &mut work) {
        Ok(done) => end_at(opener, path, done, err),
        Err(failure) => fail_at(opener, path, failure, err),
    }
}

/// Carries an order out over the registry that is opened for it, or made with this layout, or sends it to the
/// server that holds it.
pub fn run_order_at<K: Keeper, O: Opener<K>, M: Messenger, W: Write, E: Write>(
    alloc: Global,
    opener: &mut O,
    messenger: &mut M,
    place: Place,
    layout: Layout,
    order: &Order,
    out: &mut W,
    err: &mut E,
) -> u8
    ensures runs { RunsAt (acts (between K.is_honest K.kept O.opens (O.had opener.old) (O.had opener.new))
        (M.had messenger.old) (M.had messenger.new))
        place.entry order.now result (output (W.contents out.old) (W.contents out.new))
        (output (E.contents err.old) (E.contents err.new)) }
    ensures silent { 0 < result → result < 4
        → IsSilent (output (W.contents out.old) (W.contents out.new)) }
    ensures status { result ≤ 4 }
    ensures read { result ≢ 2 }
{
    match place {
        Place::Database(path) => run_order(alloc, opener, path, layout, order, out, err),
        Place::Server(path) => send_order(alloc, messenger, path, order, out, err),
    }
}

/// One connection that is served.
#[derive(Drop)]
struct ConnectionWork<'r, 'o, R: Read, W: Write> {
    alloc: Global,
    settings: Settings,
    reader: &'r mut R,
    out: &'o mut W,
}

impl<'r, 'o, K: Keeper, R: Read, W: Write> Work<K> for ConnectionWork<'r, 'o, R, W> {
    ghost use Rattle.std.specs.Prelude.{IfErr};
    ghost use Rattle.registry_orders.specs.Failures.{IsOfConnection};
    ghost use Rattle.registry_tasks.specs.Program.{ServesOne};

    type Told = Done;

    ghost does = { λ old s done new s'. ServesOne old.settings done.ended
        (streams (R.remaining old.reader.now) (R.remaining new.reader.now)
        (W.contents old.out.now) (W.contents new.out.now)) s s' };

    ghost says = { λ old done new. (new.reader.ghost_name ≡ old.reader.ghost_name)
        × (new.out.ghost_name ≡ old.out.ghost_name) × IfErr done.ended IsOfConnection };

    fn work(&mut self, kept: K) -> Ended<K, Done> {
        let mut service = Service::new(kept);
        let (alloc, settings) = (self.alloc, self.settings);
        let ended = serve_stdio(alloc, &mut service, settings, self.reader, self.out);
        let spent = service.spent();
        Ended {
            keeper: service.into_keeper(),
            told: Done { ended, spent },
        }
    }
}

/// Opens the registry at a path, or makes one with this layout, and serves one connection over it with these
/// settings.
pub fn run_stored<K: Keeper, O: Opener<K>, R: Read, W: Write, E: Write>(
    alloc: Global,
    opener: &mut O,
    path: &str,
    layout: Layout,
    settings: Settings,
    reader: &mut R,
    out: &mut W,
    err: &mut E,
) -> u8
    ensures runs { RunsStored (between K.is_honest K.kept O.opens (O.had opener.old) (O.had opener.new))
        settings path.now result
        (streams (R.remaining reader.old) (R.remaining reader.new)
        (W.contents out.old) (W.contents out.new))
        (output (E.contents err.old) (E.contents err.new)) }
    ensures failed { 0 < result → 3 ≤ result }
    ensures status { result ≤ 4 }
{
    let mut work = ConnectionWork {
        alloc,
        settings,
        reader,
        out,
    };
    match opener.with_open(path, layout, &mut work) {
        Ok(done) => end_at(opener, path, done, err),
        Err(failure) => fail_at(opener, path, failure, err),
    }
}

/// Takes over the registry of schema 1 at a path.
pub fn run_migration<K: Keeper, O: Opener<K>, E: Write>(
    opener: &mut O,
    path: &str,
    err: &mut E,
) -> u8
    ensures runs { EndsMigration
        (between K.is_honest K.kept O.opens (O.had opener.old) (O.had opener.new)) path.now result
        (output (E.contents err.old) (E.contents err.new)) }
    ensures status { result ≤ 4 }
    ensures read { result ≢ 2 }
{
    match opener.migrate(path) {
        Ok(()) => 0,
        Err(failure) => fail_at(opener, path, failure, err),
    }
}
