//! What is told of words that are no task: help, the version, or what is wrong with them.
ghost use Rattle.std.specs.Prelude.{◌≡◌, None};
ghost use Rattle.registry_tasks.specs.Program.{streams, Tells};
ghost use Rattle.clap.specs.Values.{kind_of};
ghost use Rattle.registry_orders.specs.Failures.{status_of};
ghost use Rattle.registry_orders.specs.Outputs.{output};

use clap::Error;
use clap::error::ErrorKind;
use registry_orders::Failure;
use registry_orders::failure::say;
use registry_orders::output::write_text;
use std::alloc::Global;
use std::io::Write;

/// Answers a command line that is a mistake, or that asks for help or the version.
pub fn tell<W: Write, E: Write>(alloc: Global, error: &Error, out: &mut W, err: &mut E) -> u8
    ensures tells { Tells result (streams None None (W.contents out.old) (W.contents out.new))
        (output (E.contents err.old) (E.contents err.new)) }
    ensures wanting { kind_of error.now ≡ ErrorKind.OutOfMemory
        → result ≡ status_of Failure.OutOfMemory }
{
    if error.kind() == ErrorKind::OutOfMemory {
        return say(err, Failure::OutOfMemory);
    }
    let Ok(text) = error.to_string(alloc) else {
        return say(err, Failure::OutOfMemory);
    };
    if error.use_stderr() {
        let _ = write_text(err, text.as_bytes());
        2
    } else {
        match write_text(out, text.as_bytes()) {
            Ok(()) => 0,
            Err(_) => say(err, Failure::ConnectionFailure),
        }
    }
}
