//! What the words of a command line come to.
ghost use Rattle.std.specs.Prelude.{◌≢◌, ◌<◌, ◌≤◌, map};
ghost use Rattle.registry_opening.specs.Openings.{between};
ghost use Rattle.registry_tasks.specs.Acts.{acts};
ghost use Rattle.registry_tasks.specs.Program.{streams};
ghost use Rattle.registry_program.specs.Running.{RunsServer, RunsMemoryServer, RunsServed};
ghost use Rattle.registry_program.specs.Running.{RunsWords, IsSparedFor, EndsTask, IsSparedBy};
ghost use Rattle.registry_orders.specs.Outputs.{output, IsSilent};

use crate::memory::serve_in_memory;
use crate::serving::{Serving, serve};
use registry_checking::Watch;
use registry_model::Keeper;
use registry_opening::Opener;
use registry_orders::cause::say_at;
use registry_orders::failure::say;
use registry_orders::line::read_words;
use registry_orders::options::Setup;
use registry_orders::unread::Told;
use registry_orders::{Failure, Layout, Served, Task};
use registry_tasks::{
    Messenger, run_check, run_migration, run_order_at, run_stored, run_token_order, send_stop,
    serve_memory, tell,
};
use std::convert::AsStr;
use std::io::{Read, Write};

/// Opens the registry at a path, or makes one with this layout, binds the address and the socket for orders,
/// says what is served, and serves so many connections. The socket for orders is taken away at the end.
fn run_server<'a, K: Keeper, O: Opener<K>, W: Write, E: Write>(
    rt: &HostRuntime,
    opener: &mut O,
    path: &'a str,
    layout: Layout,
    serving: Serving<'a>,
    out: &mut W,
    err: &mut E,
) -> u8
    ensures runs { RunsServer (between K.is_honest K.kept O.opens (O.had opener.old) (O.had opener.new))
        serving.entry.settings serving.entry.limits path.now
        result (output (W.contents out.old) (W.contents out.new)) }
    ensures failed { 0 < result → 3 ≤ result }
    ensures status { result ≤ 4 }
{
    match serve(rt, opener, path, layout, serving, out, err) {
        (Ok(()), _) => 0,
        (Err(failure), Some(none)) => say_at(err, failure, none.place, none.cause),
        (Err(failure), None) => say_at(err, failure, path, opener.cause(path, failure)),
    }
}

/// Makes a registry in memory that begins with this setup, and does the same over it.
fn run_memory_server<'a, W: Write, E: Write>(
    rt: &HostRuntime,
    setup: &Setup,
    serving: Serving<'a>,
    out: &mut W,
    err: &mut E,
) -> u8
    ensures runs { RunsMemoryServer serving.entry.settings serving.entry.limits setup.now
        result (output (W.contents out.old) (W.contents out.new)) }
    ensures status { result ≤ 4 }
{
    match serve_in_memory(rt, setup, serving, out, err) {
        (Ok(()), _) => 0,
        (Err(failure), Some(none)) => say_at(err, failure, none.place, none.cause),
        (Err(failure), None) => say(err, failure),
    }
}

/// Serves so many connections over a registry, in memory or at a path.
fn run_server_over<'a, K: Keeper, O: Opener<K>, W: Write, E: Write>(
    rt: &HostRuntime,
    opener: &mut O,
    served: Served<'a>,
    layout: Layout,
    serving: Serving<'a>,
    out: &mut W,
    err: &mut E,
) -> u8
    ensures runs { RunsServed (between K.is_honest K.kept O.opens (O.had opener.old) (O.had opener.new))
        serving.entry.settings serving.entry.limits served.entry
        result (output (W.contents out.old) (W.contents out.new)) }
    ensures silent { 0 < result → result < 3
        → IsSilent (output (W.contents out.old) (W.contents out.new)) }
    ensures status { result ≤ 4 }
    ensures read { result ≢ 2 }
{
    match served {
        Served::Memory(setup) => run_memory_server(rt, &setup, serving, out, err),
        Served::Stored(path) => run_server(rt, opener, path, layout, serving, out, err),
    }
}

/// Does a task, and gives the exit status. With status 1 or 2 nothing was read or written, but for the line
/// of standard input that the task takes for a token.
fn run_task<K: Keeper, O: Opener<K>, M: Messenger, V: Watch, R: Read, W: Write, E: Write>(
    rt: &HostRuntime,
    opener: &mut O,
    messenger: &mut M,
    watch: &V,
    task: Task,
    reader: &mut R,
    out: &mut W,
    err: &mut E,
) -> u8
    ensures runs { EndsTask (acts (between K.is_honest K.kept O.opens (O.had opener.old) (O.had opener.new))
        (M.had messenger.old) (M.had messenger.new))
        task.entry result
        (streams (R.remaining reader.old) (R.remaining reader.new)
        (W.contents out.old) (W.contents out.new))
        (output (E.contents err.old) (E.contents err.new)) }
    ensures refused { 0 < result → result < 3
        → IsSparedBy task.entry
        (streams (R.remaining reader.old) (R.remaining reader.new)
        (W.contents out.old) (W.contents out.new)) }
    ensures status { result ≤ 4 }
{
    let alloc = rt.alloc();
    match task {
        Task::Memory { setup, settings } => serve_memory(alloc, settings, &setup, reader, out, err),
        Task::Stored {
            path,
            layout,
            settings,
        } => run_stored(alloc, opener, path, layout, settings, reader, out, err),
        Task::Server {
            served,
            layout,
            address,
            connections,
            limits,
            beside,
            settings,
        } => {
            let serving = Serving {
                address,
                connections,
                limits,
                beside,
                settings,
            };
            run_server_over(rt, opener, served, layout, serving, out, err)
        }
        Task::Order {
            place,
            layout,
            order,
        } => run_order_at(alloc, opener, messenger, place, layout, &order, out, err),
        Task::TokenOrder {
            place,
            layout,
            source,
            order,
        } => run_token_order(
            rt, alloc, opener, messenger, place, layout, source, order, reader, out, err,
        ),
        Task::Check { path } => run_check(alloc, opener, watch, path, out, err),
        Task::Migration { path } => run_migration::<K, O, E>(opener, path, err),
        Task::Stop { path } => send_stop(alloc, messenger, path, out, err),
    }
}

/// Does what the words behind the program's name say, with these ends for standard input, output
/// and error, and an opener of databases, and gives the exit status: 0 done, 1 a refused command, 2
/// the command line, 3 storage, schema or memory, 4 a socket, reading or writing failed. What is wrong
/// with the words is told before a database is opened or a server asked. With status 1 or 2 nothing was read
/// or written, but for the line of standard input that the words take for a token. An order that is sent has
/// the status and the text that the server answers. Standard error gets a first part of the lines that tell
/// how the task ended, or why there is none; what a server says there is not stated.
pub fn run_words<
    K: Keeper,
    O: Opener<K>,
    M: Messenger,
    V: Watch,
    S: AsStr,
    R: Read,
    W: Write,
    E: Write,
>(
    rt: &HostRuntime,
    opener: &mut O,
    messenger: &mut M,
    watch: &V,
    words: &[S],
    reader: &mut R,
    out: &mut W,
    err: &mut E,
) -> u8
    ensures runs { RunsWords (acts (between K.is_honest K.kept O.opens (O.had opener.old) (O.had opener.new))
        (M.had messenger.old) (M.had messenger.new))
        (map S.text words.now) result
        (streams (R.remaining reader.old) (R.remaining reader.new)
        (W.contents out.old) (W.contents out.new))
        (output (E.contents err.old) (E.contents err.new)) }
    ensures refused { 0 < result → result < 3
        → IsSparedFor (map S.text words.now)
        (streams (R.remaining reader.old) (R.remaining reader.new)
        (W.contents out.old) (W.contents out.new)) }
    ensures status { result ≤ 4 }
{
    let alloc = rt.alloc();
    match read_words(alloc, words) {
        Ok(task) => run_task(rt, opener, messenger, watch, task, reader, out, err),
        Err(Told::Failed(failure)) => say(err, failure),
        Err(Told::Options { word, cause }) => {
            say_at(err, Failure::InvalidOptions, word, Some(cause))
        }
        Err(Told::Line(error)) => tell(alloc, &error, out, err),
    }
}
