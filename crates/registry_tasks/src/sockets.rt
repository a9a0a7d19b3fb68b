//! What is said as a server takes connections.
ghost use Rattle.std.specs.Prelude.{◌≡◌, OnOk, IfErr};
ghost use Rattle.std.specs.Io.KnownBytes.{Appends};
ghost use Rattle.registry_tasks.specs.Sockets.{greeting};

use registry_orders::Failure;
use std::io::Write;

/// Says on standard output that connections are taken.
pub fn announce<W: Write>(out: &mut W) -> Result<(), Failure>
    ensures written { OnOk result (Appends (W.contents out.old) (W.contents out.new) greeting) }
    ensures fails { IfErr result (λ failure. failure ≡ Failure.ConnectionFailure) }
{
    match out.write_all(b"registry: listening\n") {
        Ok(()) => Ok(()),
        Err(_) => Err(Failure::ConnectionFailure),
    }
}
