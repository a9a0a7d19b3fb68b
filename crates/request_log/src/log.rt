//! What is said on standard error of the requests that were answered.

use crate::cut::Cut;
use crate::line::{Said, cut_line, left_out_line, line_of, refused_in, said_of, short_line};
use crate::outlet::Outlet;
use registry_server::{Connections, Turn};
use std::alloc::{AllocError, Global};
use std::io::Write;
use std::time::{Clock, Duration};

/// What is said where memory is wanting for more.
const OUT_OF_MEMORY: &[u8] = b"registry: out of memory\n";

/// So many lines are said in a second where not all are to be said.
const MOST_A_SECOND: u32 = 10;

/// After so many seconds it is said again that descriptors are wanting.
const SHORT: u64 = 60;

/// Says each request on a line, if it is to; and in any case each that was answered 500 or 503, with what
/// failed, each that was answered 413 or 429, with the limit that it met and the repository, each reply that
/// was cut off, and that descriptors are wanting. A line of a request has the time (RFC 3339), the number of
/// the connection, the method, the path as it came, without its query, the status, the bytes of the body,
/// those of the reply and microseconds, and a hyphen for what is not known. No token is said, since a header
/// field never is.
///
/// Nobody waits for a line. Where standard error takes none it is left out; where not each request is said,
/// at most ten lines a second are, of at most 300 bytes. How many were left out is said when one is taken
/// again.
pub struct Log<'a, E: Write> {
    outlet: Outlet<'a, E>,
    all: bool,
    /// The second that it was last, and how many lines were to be said in it.
    second: u64,
    count: u32,
    /// How many lines were left out and were not told.
    left_out: u64,
    /// When it was said last that descriptors are wanting.
    short: Option<Duration>,
}

impl<'a, E: Write> Drop for Log<'a, E> {
    fn drop(self) {
        let Log {
            outlet: _,
            all: _,
            second: _,
            count: _,
            left_out: _,
            short: _,
        } = self;
    }
}

impl<'a, E: Write> Log<'a, E> {
    /// Of all requests, or of those alone for which something failed.
    pub fn new(outlet: Outlet<'a, E>, all: bool) -> Log<'a, E> {
        Log {
            outlet,
            all,
            second: 0,
            count: 0,
            left_out: 0,
            short: None,
        }
    }

    /// Writes a line before there are any requests, whether that waits or not.
    pub fn introduce(&mut self, line: &str) {
        self.outlet.put_waiting(line.as_bytes());
    }

    /// Whether lines were left out, and how many was not said yet.
    pub fn has_left_out(&self) -> bool {
        self.left_out > 0
    }

    /// Says how many lines were left out, if it is taken.
    fn say_left_out<T: Clock>(&mut self, alloc: Global, clock: &T) {
        if let Ok(line) = left_out_line(alloc, clock, self.left_out) {
            if self.outlet.put(line.as_bytes()) {
                self.left_out = 0;
            }
        }
    }

    /// Notes when it is. In a new second as many lines may be said again, and first how many were left out.
    pub fn note_second<T: Clock>(&mut self, alloc: Global, clock: &T, now: Duration) {
        let second = now.as_secs();
        if self.second == second {
            return;
        }
        self.second = second;
        self.count = 0;
        if self.has_left_out() {
            self.say_left_out(alloc, clock);
        }
    }

    /// Whether one more line may be said in this second.
    fn may_say(&mut self) -> bool {
        self.count = self.count.saturating_add(1);
        self.all || self.count <= MOST_A_SECOND
    }

    /// Says a line, if it may be said and is taken.
    fn say(&mut self, line: Result<String, AllocError>) {
        let may = self.may_say();
        let put = may
            && match line {
                Ok(line) => self.outlet.put(line.as_bytes()),
                Err(_) => self.outlet.put(OUT_OF_MEMORY),
            };
        if !put {
            self.left_out = self.left_out.saturating_add(1);
        }
    }

    /// Says a line of a request, if it is to be said.
    fn say_request<T: Clock>(&mut self, alloc: Global, clock: &T, now: Duration, said: &Said) {
        if self.all || said.is_failure() {
            self.note_second(alloc, clock, now);
            let line = line_of(alloc, clock, said, self.all);
            self.say(line);
        }
    }

    /// Says what a turn came to that took so long and ended now, if a reply came of it.
    pub fn say_turn<T: Clock>(
        &mut self,
        alloc: Global,
        clock: &T,
        connections: &Connections,
        turn: &Turn,
        took: Duration,
        now: Duration,
    ) {
        let refused = refused_in(alloc, connections, turn);
        if let Some(said) = said_of(connections, turn, &refused, took) {
            self.say_request(alloc, clock, now, &said);
        }
    }

    /// Says that one who came was turned away, because memory is wanting for a connection.
    pub fn say_turned_away<T: Clock>(&mut self, alloc: Global, clock: &T, now: Duration) {
        self.say_request(alloc, clock, now, &Said::turned_away());
    }

    /// Says that a reply was cut off.
    pub fn say_cut<T: Clock>(&mut self, alloc: Global, clock: &T, now: Duration, cut: &Cut) {
        self.note_second(alloc, clock, now);
        let line = cut_line(alloc, clock, cut);
        self.say(line);
    }

    /// Says that the system has no descriptor for a further connection beside so many, once a minute.
    pub fn say_short<T: Clock>(&mut self, alloc: Global, clock: &T, now: Duration, open: usize) {
        let due = match self.short {
            Some(since) => now.saturating_sub(since) >= Duration::from_secs(SHORT),
            None => true,
        };
        if due {
            self.short = Some(now);
            self.note_second(alloc, clock, now);
            let line = short_line(alloc, clock, open);
            self.say(line);
        }
    }
}
