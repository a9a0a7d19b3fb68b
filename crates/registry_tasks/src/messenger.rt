//! What takes lines to the servers that take orders, and brings what they answer.
ghost use Rattle.std.specs.Prelude.{◌≡◌, ◌++◌, List, Some, None, OnOk, IfOk, IfErr, IfSome, MatchResult};
ghost use Rattle.std.specs.Io.KnownBytes.{Appends};
ghost use Rattle.registry_orders.specs.Outputs.{newline};
ghost use Rattle.registry_tasks.specs.Sending.{IsOfSending, Exchange, Exchanges};

use registry_orders::{Cause, Failure};
use std::alloc::Global;
use std::io::{ErrorKind, Read, Write};
use std::net::Shutdown;
use std::os::unix::net::UnixStream;

/// The most bytes of an answer.
const MOST_BYTES: usize = 67_108_864;

/// Why there is no answer.
#[derive(Clone, Copy)]
pub struct NoAnswer {
    pub failure: Failure,
    pub cause: Option<Cause>,
}

impl From<Failure> for NoAnswer {
    ghost use Rattle.std.specs.Prelude.{◌≡◌};

    ghost from_gives = { λ failure none. none.failure ≡ failure };

    fn from(failure: Failure) -> NoAnswer {
        NoAnswer {
            failure,
            cause: None,
        }
    }
}

/// What is wrong with the path of the socket, where the kind of the error tells.
fn cause_of_connecting(kind: ErrorKind) -> Option<Cause> {
    match kind {
        ErrorKind::NotFound | ErrorKind::NotADirectory | ErrorKind::ConnectionRefused => {
            Some(Cause::NoServer)
        }
        ErrorKind::PermissionDenied => Some(Cause::NoRightToWrite),
        _ => None,
    }
}

/// Writes a line, and its end.
fn write_line<S: Write>(alloc: Global, line: &str, stream: &mut S) -> Result<(), Failure>
    ensures written { OnOk result (Appends (S.contents stream.old) (S.contents stream.new)
        (line.now ++ newline)) }
    ensures refused { IfErr result IsOfSending }
{
    let mut whole = String::from_str(alloc, line)?;
    whole.push('\n')?;
    match stream.write_all(whole.as_bytes()) {
        Ok(()) => Ok(()),
        Err(_) => Err(Failure::ConnectionFailure),
    }
}

/// All that a reader has left. An error is that reading fails, that it is too much for an answer, or that
/// memory is wanting.
fn read_all<R: Read + Drop>(alloc: Global, reader: R) -> Result<Vec<u8>, Failure>
    ensures given { IfOk result (λ bytes. IfSome (R.remaining reader) (λ left. bytes.items ≡ left)) }
    ensures refused { IfErr result IsOfSending }
{
    let mut bytes = Vec::new(alloc);
    match reader.take(MOST_BYTES as u64 + 1).read_to_end(&mut bytes) {
        Ok(_) if bytes.len() <= MOST_BYTES => Ok(bytes),
        Ok(_) => Err(Failure::ConnectionFailure),
        Err(error) => match error.kind() {
            ErrorKind::OutOfMemory => Err(Failure::OutOfMemory),
            _ => Err(Failure::ConnectionFailure),
        },
    }
}

/// What takes lines to servers.
pub trait Messenger {
    // These were taken up to now, and so they were answered.
    ghost had: { Self → List Exchange → Type 0 };

    /// Takes a line, and its end, to the server that takes orders at the socket at a path, and brings all
    /// that it answers. An error is that there is no server or no answer, that it has more than 64 MiB, or
    /// want of memory; then the line may have come there or not.
    fn ask(&mut self, alloc: Global, path: &str, line: &str) -> Result<Vec<u8>, NoAnswer>
        ensures asked { MatchResult result
            (λ answer. Exchanges (had self.old) (had self.new) path.now line.now (Some answer.items))
            (λ none. Exchanges (had self.old) (had self.new) path.now line.now None) }
        ensures refused { IfErr result (λ none. IsOfSending none.failure) };
}

/// The servers at sockets of this machine.
#[derive(Drop)]
pub struct Servers<'a> {
    rt: &'a HostRuntime,
}

impl<'a> Servers<'a> {
    pub fn new(rt: &'a HostRuntime) -> Servers<'a> {
        Servers { rt }
    }
}

/// What is answered over a stream to a line.
fn answer_over(alloc: Global, stream: &UnixStream, line: &str) -> Result<Vec<u8>, Failure>
    ensures { IfErr result IsOfSending }
{
    let mut writer = stream;
    write_line(alloc, line, &mut writer)?;
    match stream.shutdown(Shutdown::Write) {
        Ok(()) => read_all(alloc, stream),
        Err(_) => Err(Failure::ConnectionFailure),
    }
}

impl Messenger for Servers<'_> {
    ghost use Rattle.std.specs.Prelude.{⊤};

    // They remember nothing.
    ghost had = { λ _ _. ⊤ };

    fn ask(&mut self, alloc: Global, path: &str, line: &str) -> Result<Vec<u8>, NoAnswer> {
        match UnixStream::connect(self.rt, path) {
            Ok(stream) => Ok(answer_over(alloc, &stream, line)?),
            Err(error) => Err(NoAnswer {
                failure: Failure::ConnectionFailure,
                cause: cause_of_connecting(error.kind()),
            }),
        }
    }
}
