//! Where lines go, of which none is waited for.

use mio::unix::SourceFd;
use mio::{Events, Interest, Poll, Token};
use std::alloc::Global;
use std::io::Write;
use std::os::fd::RawFd;
use std::time::Duration;

/// The most bytes of a line. A pipe that takes anything takes so many at once (POSIX.1-2017, `PIPE_BUF`, of
/// which Linux has 4,096).
pub const LONGEST: usize = 4_096;

/// A descriptor that is asked whether it takes a line. It may be that of others as well, so nothing of it is
/// changed.
struct Readiness {
    poll: Poll,
    events: Events,
    descriptor: RawFd,
}

impl Drop for Readiness {
    fn drop(self) {
        let Readiness {
            poll: _,
            events: _,
            descriptor: _,
        } = self;
    }
}

impl Readiness {
    /// None where the system does not watch it, as it watches no file.
    fn new(alloc: Global, net: &HostRuntime, descriptor: RawFd) -> Option<Readiness> {
        let poll = Poll::new(net).ok()?;
        let events = Events::with_capacity(alloc, 1).ok()?;
        let mut source = SourceFd(&descriptor);
        poll.registry()
            .register(&mut source, Token(0), Interest::WRITABLE)
            .ok()?;
        Some(Readiness {
            poll,
            events,
            descriptor,
        })
    }

    /// Whether it takes a line now. Who asks anew is told of what was told before.
    fn takes(&mut self) -> bool {
        let mut source = SourceFd(&self.descriptor);
        let registry = self.poll.registry();
        let asked = registry.reregister(&mut source, Token(0), Interest::WRITABLE);
        let told = self.poll.poll(&mut self.events, Some(Duration::ZERO));
        asked.is_ok() && told.is_ok() && self.events.iter().next().is_some()
    }
}

/// Where lines go.
#[derive(Drop)]
pub struct Outlet<'a, E: Write> {
    err: &'a mut E,
    readiness: Option<Readiness>,
}

impl<'a, E: Write> Outlet<'a, E> {
    /// It is written to, whether that waits or not.
    pub fn new(err: &'a mut E) -> Outlet<'a, E> {
        Outlet {
            err,
            readiness: None,
        }
    }

    /// What is written to it goes to a descriptor, which is asked first where the system can tell.
    pub fn over(
        alloc: Global,
        net: &HostRuntime,
        err: &'a mut E,
        descriptor: RawFd,
    ) -> Outlet<'a, E> {
        let readiness = Readiness::new(alloc, net, descriptor);
        Outlet { err, readiness }
    }

    /// Writes a line, of which at most 4,096 bytes, if it is taken at once; says whether it was.
    pub fn put(&mut self, line: &[u8]) -> bool {
        if let Some(readiness) = &mut self.readiness {
            if !readiness.takes() {
                return false;
            }
        }
        let most = line.len().min(LONGEST);
        self.err.write_all(&line[..most]).is_ok()
    }

    /// Writes a line, whether that waits or not. Where it cannot be written, nothing is said of that.
    pub fn put_waiting(&mut self, line: &[u8]) {
        let _ = self.err.write_all(line);
    }
}
