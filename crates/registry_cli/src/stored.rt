//! The program over the tables of databases. The layers are each generic in one piece of a store's type,
//! which keeps their proofs small.
ghost use Rattle.std.specs.Prelude.{◌<◌, ◌≤◌, true, map};
ghost use Rattle.sqlite.specs.Files.{over_files};
ghost use Rattle.registry_opening.specs.Openings.{between};
ghost use Rattle.registry_orders.specs.Outputs.{output};
ghost use Rattle.registry_tasks.specs.Acts.{acts};
ghost use Rattle.registry_tasks.specs.Program.{streams};
ghost use Rattle.registry_program.specs.Running.{RunsWords, IsSparedFor};
ghost use Rattle.registry_store.specs.Kept.{IsHonest, shown};

use registry_checking::Watch;
use registry_opening::Opener;
use registry_program::run_words;
use registry_store::{Ours, Reclaim, Store};
use registry_tasks::Messenger;
use sqlite::{Alter, FileStore};
use sqlite_disk::Disk;
use std::convert::AsStr;
use std::io::{Read, Write};

/// `run_words` over the tables of databases, with the bytes of contents where `C` keeps them.
fn run_over<
    S: Alter,
    C: Reclaim,
    O: Opener<Store<S, Ours, C>>,
    M: Messenger,
    V: Watch,
    T: AsStr,
    R: Read,
    W: Write,
    E: Write,
>(
    rt: &HostRuntime,
    opener: &mut O,
    messenger: &mut M,
    watch: &V,
    words: &[T],
    reader: &mut R,
    out: &mut W,
    err: &mut E,
) -> u8
    ensures runs { RunsWords
        (acts (between (IsHonest S.Store C.Contents true) (shown S.Store C.Contents)
        O.opens (O.had opener.old) (O.had opener.new)) (M.had messenger.old) (M.had messenger.new))
        (map T.text words.now) result
        (streams (R.remaining reader.old) (R.remaining reader.new)
        (W.contents out.old) (W.contents out.new))
        (output (E.contents err.old) (E.contents err.new)) }
    ensures refused { 0 < result → result < 3
        → IsSparedFor (map T.text words.now)
        (streams (R.remaining reader.old) (R.remaining reader.new)
        (W.contents out.old) (W.contents out.new)) }
    ensures status { result ≤ 4 }
{
    run_words(rt, opener, messenger, watch, words, reader, out, err)
}

/// Does what the words behind the program's name say, over databases in files, with these ends for standard
/// input, output and error; gives the exit status, as `run_words` does.
pub fn run_in_files<
    D: Disk,
    C: Reclaim,
    O: Opener<Store<FileStore<D>, Ours, C>>,
    M: Messenger,
    V: Watch,
    T: AsStr,
    R: Read,
    W: Write,
    E: Write,
>(
    rt: &HostRuntime,
    opener: &mut O,
    messenger: &mut M,
    watch: &V,
    words: &[T],
    reader: &mut R,
    out: &mut W,
    err: &mut E,
) -> u8
    ensures runs { RunsWords
        (acts (between (IsHonest (over_files {g = D.Disk}) C.Contents true)
        (shown (over_files {g = D.Disk}) C.Contents)
        O.opens (O.had opener.old) (O.had opener.new)) (M.had messenger.old) (M.had messenger.new))
        (map T.text words.now) result
        (streams (R.remaining reader.old) (R.remaining reader.new)
        (W.contents out.old) (W.contents out.new))
        (output (E.contents err.old) (E.contents err.new)) }
    ensures refused { 0 < result → result < 3
        → IsSparedFor (map T.text words.now)
        (streams (R.remaining reader.old) (R.remaining reader.new)
        (W.contents out.old) (W.contents out.new)) }
    ensures status { result ≤ 4 }
{
    run_over::<FileStore<D>, C, O, M, V, T, R, W, E>(
        rt, opener, messenger, watch, words, reader, out, err,
    )
}
