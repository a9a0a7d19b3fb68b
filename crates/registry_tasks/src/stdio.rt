ghost use Rattle.std.specs.Prelude.{◌≡◌, IfErr};
ghost use Rattle.registry_orders.specs.Failures.{IsOfConnection};
ghost use Rattle.registry_orders.specs.Outputs.{output};
ghost use Rattle.registry_tasks.specs.Failures.{ended_as};
ghost use Rattle.registry_tasks.specs.Program.{streams, RunsMemory, ServesSetUp, ServesOne};

use crate::setting_up::set_up;
use registry_http::End;
use registry_maps::MapKeeper;
use registry_model::{Keeper, Settings};
use registry_orders::Failure;
use registry_orders::failure::say;
use registry_orders::options::Setup;
use registry_server::serve_connection;
use registry_service::Service;
use std::alloc::Global;
use std::io::{Read, Write};

/// What the end of the one connection says of the program: a failed connection goes before a failed
/// storage; a cut or refused connection is no failure.
fn ended(end: End, spent: bool) -> Result<(), Failure>
    ensures is { result ≡ ended_as end spent }
    ensures fails { IfErr result IsOfConnection }
{
    match end {
        End::ReadFailed => Err(Failure::ConnectionFailure),
        End::WriteFailed { .. } => Err(Failure::ConnectionFailure),
        _ => {
            if spent {
                Err(Failure::StorageFailure)
            } else {
                Ok(())
            }
        }
    }
}

/// Serves one connection over the service with these settings. It fails where reading or writing did, or
/// where the service is spent at the end. A connection that was cut or refused is no failure.
pub fn serve_stdio<R: Read, W: Write, K: Keeper>(
    alloc: Global,
    service: &mut Service<K>,
    settings: Settings,
    reader: &mut R,
    out: &mut W,
) -> Result<(), Failure>
    ensures honest { K.is_honest service.new → K.is_honest service.old }
    ensures serves { K.is_honest service.new → ServesOne settings result
        (streams (R.remaining reader.old) (R.remaining reader.new) (W.contents out.old) (W.contents out.new))
        (K.kept service.old) (K.kept service.new) }
    ensures fails { IfErr result IsOfConnection }
{
    let end = serve_connection(alloc, service, settings, reader, out);
    ended(end, service.spent())
}

/// Sets a registry up, and serves one connection over it.
fn serve_set_up<R: Read, W: Write, K: Keeper + Drop>(
    alloc: Global,
    keeper: K,
    settings: Settings,
    setup: &Setup,
    reader: &mut R,
    out: &mut W,
) -> Result<(), Failure>
    ensures { ServesSetUp K.is_honest K.kept (K.kept keeper) settings setup.now result
        (streams (R.remaining reader.old) (R.remaining reader.new)
        (W.contents out.old) (W.contents out.new)) }
{
    let mut service = Service::new(keeper);
    match set_up(alloc, &mut service, setup) {
        Ok(()) => serve_stdio(alloc, &mut service, settings, reader, out),
        Err(failure) => Err(failure),
    }
}

/// Serves one connection over a registry in memory that begins with this setup, with these settings, and
/// says on standard error what failed. The status is 0; 4 where reading or writing failed; or that of the
/// command that was refused, 1, or of want of memory, 3, and then nothing was read or written.
pub fn serve_memory<R: Read, W: Write, E: Write>(
    alloc: Global,
    settings: Settings,
    setup: &Setup,
    reader: &mut R,
    out: &mut W,
    err: &mut E,
) -> u8
    ensures serves { RunsMemory settings setup.now result
        (streams (R.remaining reader.old) (R.remaining reader.new)
        (W.contents out.old) (W.contents out.new))
        (output (E.contents err.old) (E.contents err.new)) }
{
    // That maps are a keeper is proved anew at each call that is generic in one, so there is one such call.
    let keeper = MapKeeper::new(alloc);
    match serve_set_up(alloc, keeper, settings, setup, reader, out) {
        Ok(()) => 0,
        Err(failure) => say(err, failure),
    }
}
