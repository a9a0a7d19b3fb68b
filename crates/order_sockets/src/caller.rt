//! Somebody who gives one order over a socket, or asks the server to stop.
ghost use Rattle.std.specs.Prelude.{◌≡◌, ◌≢◌, ◌==◌, true, false, position, MatchOption, IfOk, OnErr};
ghost use Rattle.order_carrying.specs.Answering.{AnswersLine, IsOneStep};
ghost use Rattle.order_texts.specs.Stopping.{stop_line, stop_answer};
ghost use Rattle.order_sockets.specs.Calling.{Attends, Obeys, fresh, line_in};
ghost use Rattle.order_sockets.specs.Calls.{called};

use mio::Token;
use mio::event::Event;
use mio::net::UnixStream;
use order_carrying::answer_line;
use order_texts::{LONGEST_LINE, is_stop, write_stopping};
use registry_model::Keeper;
use registry_service::Service;
use std::alloc::{AllocError, Global};
use std::io::{ErrorKind, Read, Write};
use std::time::Duration;

/// After so many seconds of silence a caller is let go.
const PATIENCE: u64 = 10;

/// So often its socket is read or written to, before others have their turn.
const TIMES: usize = 16;

/// A socket over which one line comes, and its answer goes.
pub struct Caller {
    pub token: Token,
    stream: UnixStream,
    /// What came of the line.
    heard: Vec<u8>,
    /// The order was carried out, or refused.
    answered: bool,
    /// The answer, and how many bytes of it went.
    answer: Vec<u8>,
    gone: usize,
    readable: bool,
    writable: bool,
    /// There is nothing more to do: it failed, or has its answer.
    pub over: bool,
    /// It asked the server to stop.
    pub stops: bool,
    since: Duration,
}

impl Drop for Caller {
    fn drop(self) {
        let Caller {
            token: _,
            stream: _,
            heard: _,
            answered: _,
            answer: _,
            gone: _,
            readable: _,
            writable: _,
            over: _,
            stops: _,
            since: _,
        } = self;
    }
}

/// Where the first line ends, if it is whole.
fn line_end(heard: &[u8]) -> Option<usize>
    ensures { result ≡ position (λ byte. byte == 10) heard.now }
{
    heard.iter().position(|byte| *byte == b'\n')
}

/// The answer to a line: to the one that asks the server to stop, and then nothing is done to the service, or
/// to any other one, which is carried out.
fn answer_to<K: Keeper>(
    alloc: Global,
    service: &mut Service<K>,
    line: &[u8],
) -> Result<Vec<u8>, AllocError>
    ensures honest { K.is_honest service.new → K.is_honest service.old }
    ensures same { line.now ≡ stop_line → K.kept service.new ≡ K.kept service.old }
    ensures stops { line.now ≡ stop_line → IfOk result (λ bytes. bytes.items ≡ stop_answer) }
    ensures steps { K.is_honest service.new → IsOneStep (K.kept service.old) (K.kept service.new) }
    ensures answers { K.is_honest service.new → line.now ≢ stop_line → IfOk result (λ bytes.
        AnswersLine (K.kept service.old) line.now bytes.items (K.kept service.new)) }
    ensures unsaid { K.is_honest service.new → OnErr result (K.kept service.new ≡ K.kept service.old) }
{
    if is_stop(line) {
        return write_stopping(alloc);
    }
    answer_line(alloc, service, line)
}

impl Caller {
    pub fn new(alloc: Global, token: Token, stream: UnixStream, now: Duration) -> Caller
        ensures { called result ≡ fresh }
    {
        Caller {
            token,
            stream,
            heard: Vec::new(alloc),
            answered: false,
            answer: Vec::new(alloc),
            gone: 0,
            readable: true,
            writable: true,
            over: false,
            stops: false,
            since: now,
        }
    }

    /// Notes what it was found ready for, if the event is its own.
    pub fn note(&mut self, event: &Event)
        ensures { called self.new ≡ called self.old }
    {
        if self.token != event.token() {
            return;
        }
        let failed = event.is_error();
        self.readable = self.readable || failed || event.is_readable() || event.is_read_closed();
        self.writable = self.writable || failed || event.is_writable() || event.is_write_closed();
    }

    /// Whether it has something to say, or takes its answer.
    pub fn is_ready(&self) -> bool {
        if self.over {
            false
        } else if self.answered {
            self.writable
        } else {
            self.readable
        }
    }

    /// For how long nothing came of the order that it has not given; not at all where it has given one.
    pub fn silence(&self, now: Duration) -> Duration {
        if self.answered || self.readable {
            Duration::ZERO
        } else {
            now.saturating_sub(self.since)
        }
    }

    /// Whether it is to go. One that asked the server to stop stays as long as the server does, and sees by
    /// the end of what it reads that the server has ended.
    pub fn leaves(&self, now: Duration) -> bool {
        let silent = now.saturating_sub(self.since) >= Duration::from_secs(PATIENCE);
        !self.stops && (self.over || silent)
    }

    /// Reads once.
    fn hear_once(&mut self, now: Duration)
        ensures answered { self.new.answered ≡ self.old.answered }
        ensures answer { self.new.answer ≡ self.old.answer }
        ensures stops { self.new.stops ≡ self.old.stops }
    {
        let mut room = [0; LONGEST_LINE];
        match self.stream.read(&mut room) {
            Ok(0) => self.over = true,
            Ok(count) => {
                self.since = now;
                let came = &room[..count.min(room.len())];
                let kept = self.heard.extend_from_slice(came).is_ok();
                self.over = !kept || self.heard.len() > LONGEST_LINE;
            }
            Err(error) => match error.kind() {
                ErrorKind::WouldBlock => self.readable = false,
                ErrorKind::Interrupted => {}
                _ => self.over = true,
            },
        }
    }

    /// Reads what there is of the line.
    fn hear(&mut self, now: Duration)
        ensures answered { self.new.answered ≡ self.old.answered }
        ensures answer { self.new.answer ≡ self.old.answer }
        ensures stops { self.new.stops ≡ self.old.stops }
        ensures before { self.old.answered ≡ true → called self.new ≡ called self.old }
    {
        if self.answered {
            return;
        }
        for _ in 0..TIMES {
            if line_end(&self.heard).is_some() || !self.readable || self.over {
                return;
            }
            self.hear_once(now);
        }
    }

    /// Carries the order out, if its line is whole, or notes that the server is to stop.
    fn obey<K: Keeper>(&mut self, alloc: Global, service: &mut Service<K>)
        ensures honest { K.is_honest service.new → K.is_honest service.old }
        ensures heard { self.new.heard ≡ self.old.heard }
        ensures obeys { K.is_honest service.new → MatchOption (line_in self.old.heard.items)
            ((called self.new ≡ called self.old) × (K.kept service.new ≡ K.kept service.old))
            (λ line. (self.new.answered ≡ true)
            × Obeys line (called self.new) (K.kept service.old) (K.kept service.new)) }
    {
        let Some(end) = line_end(&self.heard) else {
            return;
        };
        let end = end.min(self.heard.len());
        let stops = is_stop(&self.heard[..end]);
        let answer = answer_to(alloc, service, &self.heard[..end]);
        self.answered = true;
        self.stops = stops;
        match answer {
            Ok(answer) => self.answer = answer,
            Err(_) => self.over = true,
        }
    }

    /// Writes once what is left of the answer.
    fn tell_once(&mut self, now: Duration)
        ensures heard { self.new.heard ≡ self.old.heard }
        ensures answered { self.new.answered ≡ self.old.answered }
        ensures answer { self.new.answer ≡ self.old.answer }
        ensures stops { self.new.stops ≡ self.old.stops }
        ensures over { self.old.over ≡ true → self.new.over ≡ true }
    {
        let going = self.answer.get(self.gone..).unwrap_or(&[]);
        if going.is_empty() {
            self.over = true;
            return;
        }
        match self.stream.write(going) {
            Ok(0) => self.over = true,
            Ok(count) => {
                self.since = now;
                self.gone = self.gone.saturating_add(count);
            }
            Err(error) => match error.kind() {
                ErrorKind::WouldBlock => self.writable = false,
                ErrorKind::Interrupted => {}
                _ => self.over = true,
            },
        }
    }

    /// Writes the answer, as far as it is taken.
    pub fn tell(&mut self, now: Duration)
        ensures heard { self.new.heard ≡ self.old.heard }
        ensures answered { self.new.answered ≡ self.old.answered }
        ensures answer { self.new.answer ≡ self.old.answer }
        ensures stops { self.new.stops ≡ self.old.stops }
        ensures over { self.old.over ≡ true → self.new.over ≡ true }
        ensures unsaid { self.old.answered ≡ false → self.new.over ≡ self.old.over }
    {
        for _ in 0..TIMES {
            if !self.answered || !self.writable || self.over {
                return;
            }
            self.tell_once(now);
        }
    }

    /// Reads its line, and obeys it where it was not and is whole.
    fn go_on<K: Keeper>(&mut self, alloc: Global, service: &mut Service<K>, now: Duration)
        ensures honest { K.is_honest service.new → K.is_honest service.old }
        ensures attends { K.is_honest service.new
            → Attends (called self.old) (called self.new) (K.kept service.old) (K.kept service.new) }
    {
        self.hear(now);
        if !self.answered && !self.over {
            self.obey(alloc, service);
        }
    }

    /// The same, and writes the answer, as far as it goes.
    pub fn attend<K: Keeper>(&mut self, alloc: Global, service: &mut Service<K>, now: Duration)
        ensures honest { K.is_honest service.new → K.is_honest service.old }
        ensures attends { K.is_honest service.new
            → Attends (called self.old) (called self.new) (K.kept service.old) (K.kept service.new) }
    {
        self.go_on(alloc, service, now);
        self.tell(now);
    }
}
