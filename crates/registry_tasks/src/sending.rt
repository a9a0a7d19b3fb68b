//! Lines that are sent to the server that holds the registry: orders, and the one that ends it.
ghost use Rattle.std.specs.Prelude.{◌≡◌, ◌≢◌, ◌<◌, ◌≤◌};
ghost use Rattle.registry_orders.specs.Outputs.{output, IsSilent};
ghost use Rattle.registry_tasks.specs.Sending.{Shows, Relays, SendsLine, SendsOrder, SendsStop};

use crate::messenger::Messenger;
use order_texts::{Answer, STOP, read_answer, write_order};
use registry_orders::cause::say_at;
use registry_orders::failure::say;
use registry_orders::output::write_text;
use registry_orders::{Failure, Order};
use std::alloc::Global;
use std::io::Write;

/// Writes the text of an order that was carried out, or a first part of it, and says that this failed.
fn show<W: Write, E: Write>(text: &[u8], out: &mut W, err: &mut E) -> u8
    ensures { Shows text.now result (output (W.contents out.old) (W.contents out.new))
        (output (E.contents err.old) (E.contents err.new)) }
{
    match write_text(out, text) {
        Ok(()) => 0,
        Err(_) => say(err, Failure::ConnectionFailure),
    }
}

/// Does what the answer of a server says: with status 0 its text goes to standard output, else to standard
/// error. Bytes that are no answer are a failed connection. So is an answer that the line of the order was
/// none, which is no mistake of whoever gave the order.
fn relay<W: Write, E: Write>(bytes: &[u8], out: &mut W, err: &mut E) -> u8
    ensures relays { Relays bytes.now result (output (W.contents out.old) (W.contents out.new))
        (output (E.contents err.old) (E.contents err.new)) }
    ensures silent { 0 < result → result < 4
        → IsSilent (output (W.contents out.old) (W.contents out.new)) }
    ensures status { result ≤ 4 }
    ensures read { result ≢ 2 }
{
    let Some(Answer { status, text }) = read_answer(bytes) else {
        return say(err, Failure::ConnectionFailure);
    };
    if status == 0 {
        return show(text, out, err);
    }
    let _ = write_text(err, text);
    if status == 2 {
        Failure::ConnectionFailure.status()
    } else {
        status
    }
}

/// Sends a line to the server that takes orders at the socket at a path, and does what it answers: the
/// status is the server's, and its text goes to standard output where the line was carried out, and else to
/// standard error. Where there is no server, no answer, or one of more than 64 MiB, it is a failed
/// connection. The status is 3 where memory is wanting for it.
fn send_line<M: Messenger, W: Write, E: Write>(
    alloc: Global,
    messenger: &mut M,
    path: &str,
    line: &str,
    out: &mut W,
    err: &mut E,
) -> u8
    ensures sent { SendsLine (M.had messenger.old) (M.had messenger.new) path.now line.now result
        (output (W.contents out.old) (W.contents out.new))
        (output (E.contents err.old) (E.contents err.new)) }
    ensures silent { 0 < result → result < 4
        → IsSilent (output (W.contents out.old) (W.contents out.new)) }
    ensures status { result ≤ 4 }
    ensures read { result ≢ 2 }
{
    match messenger.ask(alloc, path, line) {
        Ok(answer) => relay(answer.as_slice(), out, err),
        Err(none) => say_at(err, none.failure, path, none.cause),
    }
}

/// Sends an order to the server that takes them at the socket at a path, and does what it answers, as
/// `send_line` has it.
pub fn send_order<M: Messenger, W: Write, E: Write>(
    alloc: Global,
    messenger: &mut M,
    path: &str,
    order: &Order,
    out: &mut W,
    err: &mut E,
) -> u8
    ensures sent { SendsOrder (M.had messenger.old) (M.had messenger.new) path.now order.now result
        (output (W.contents out.old) (W.contents out.new))
        (output (E.contents err.old) (E.contents err.new)) }
    ensures silent { 0 < result → result < 4
        → IsSilent (output (W.contents out.old) (W.contents out.new)) }
    ensures status { result ≤ 4 }
    ensures read { result ≢ 2 }
{
    match write_order(alloc, order) {
        Ok(line) => send_line(alloc, messenger, path, line.as_str(), out, err),
        Err(_) => say(err, Failure::OutOfMemory),
    }
}

/// Asks the server that takes orders at the socket at a path to stop, and does what it answers, likewise. It
/// ends when the connections that have something in hand are done with, and its answer ends with it.
pub fn send_stop<M: Messenger, W: Write, E: Write>(
    alloc: Global,
    messenger: &mut M,
    path: &str,
    out: &mut W,
    err: &mut E,
) -> u8
    ensures sent { SendsStop (M.had messenger.old) (M.had messenger.new) path.now result
        (output (W.contents out.old) (W.contents out.new))
        (output (E.contents err.old) (E.contents err.new)) }
    ensures silent { 0 < result → result < 4
        → IsSilent (output (W.contents out.old) (W.contents out.new)) }
    ensures status { result ≤ 4 }
    ensures read { result ≢ 2 }
{
    send_line(alloc, messenger, path, STOP, out, err)
}
