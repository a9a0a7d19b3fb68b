//! The lines of a log.

use crate::cut::Cut;
use crate::limit::{Limit, limit_met, repository_refused};
use jiff::Timestamp;
use registry_model::Verb;
use registry_outbox::Asked;
use registry_server::{Connections, Turn};
use std::alloc::{AllocError, Global};
use std::time::{Clock, Duration};

/// The most bytes of a line, and of a path in it, where not each request is said.
const SHORT_LINE: usize = 300;

const SHORT_PATH: usize = 100;

/// What failed, where a status says so.
fn failure_of(status: u16) -> Option<&'static str> {
    match status {
        500 => Some(" storage failure"),
        503 => Some(" out of memory"),
        _ => None,
    }
}

/// Microseconds.
fn micros_in(time: Duration) -> u64 {
    let whole = time.as_secs().saturating_mul(1_000_000);
    whole.saturating_add(u64::from(time.subsec_micros()))
}

/// What is known of a request, or of one who came.
#[derive(Clone, Copy)]
pub struct Said<'a> {
    number: Option<u64>,
    method: &'a str,
    path: &'a str,
    status: u16,
    came: usize,
    went: usize,
    micros: u64,
    limit: Option<Limit>,
    repo: &'a str,
}

impl<'a> Said<'a> {
    /// One who came was turned away, because memory is wanting for a connection.
    pub fn turned_away() -> Said<'static> {
        Said {
            number: None,
            method: "-",
            path: "-",
            status: 503,
            came: 0,
            went: 0,
            micros: 0,
            limit: None,
            repo: "-",
        }
    }

    /// Whether it is said in any case.
    pub fn is_failure(&self) -> bool {
        self.limit.is_some() || failure_of(self.status).is_some()
    }
}

/// The name of a method that is known (RFC 9110, section 9.3).
fn name_of(verb: Verb) -> Option<&'static str> {
    match verb {
        Verb::Get => Some("GET"),
        Verb::Head => Some("HEAD"),
        Verb::Post => Some("POST"),
        Verb::Patch => Some("PATCH"),
        Verb::Put => Some("PUT"),
        Verb::Delete => Some("DELETE"),
        Verb::Other => None,
    }
}

/// The method of a request, and its path; hyphens where its head was not read. A method that is not known
/// stands as it came.
fn request_line<'a>(asked: Option<&Asked>, came: &'a str) -> (&'a str, &'a str) {
    let (method, path) = came.split_once(' ').unwrap_or(("-", "-"));
    let known = match asked {
        Some(asked) => name_of(asked.verb),
        None => None,
    };
    (known.unwrap_or(method), path)
}

/// The method and the path of a request as they came, if its head was read.
fn line_came<'a>(connections: &'a Connections, number: u64) -> &'a str {
    match connections.exchange(number) {
        Some(exchange) => str::from_utf8(exchange.line()).unwrap_or(""),
        None => "",
    }
}

/// The repository of a request, or a hyphen; of one that was refused before it was whole, this one.
fn repo_of<'a>(asked: Option<&'a Asked>, refused: &'a Option<String>) -> &'a str {
    let name = match asked {
        Some(asked) => &asked.repository,
        None => refused,
    };
    match name {
        Some(name) => name,
        None => "-",
    }
}

/// The repository for which the request of a turn was refused before it was whole, if it was.
pub fn refused_in(alloc: Global, connections: &Connections, turn: &Turn) -> Option<String> {
    let report = turn.report.as_ref()?;
    let (_, path) = line_came(connections, turn.number).split_once(' ')?;
    repository_refused(alloc, report, path)
}

/// What is known of the request of a turn that took so long, if a reply came of it. Where it was refused
/// before it was whole, it is of this repository.
pub fn said_of<'a>(
    connections: &'a Connections,
    turn: &'a Turn,
    refused: &'a Option<String>,
    took: Duration,
) -> Option<Said<'a>> {
    let report = turn.report.as_ref()?;
    let asked = report.asked.as_ref();
    let (method, path) = request_line(asked, line_came(connections, turn.number));
    Some(Said {
        number: Some(turn.number),
        method,
        path,
        status: report.status,
        came: report.came,
        went: report.went,
        micros: micros_in(took),
        limit: limit_met(report),
        repo: repo_of(asked, refused),
    })
}

/// The second that it is.
fn second_of<T: Clock>(clock: &T) -> Option<Timestamp> {
    let time = clock.since_1970().ok()?;
    let seconds = i64::try_from(time.as_secs()).ok()?;
    Timestamp::from_second(seconds).ok()
}

/// A line's beginning: the time, as RFC 3339 has it.
fn time_text<T: Clock>(alloc: Global, clock: &T) -> Result<String, AllocError> {
    match second_of(clock) {
        Some(time) => format!(in alloc; "{time}"),
        None => format!(in alloc; "-"),
    }
}

/// Goes on with a space and a number.
fn push_number(line: &mut String, number: u64) -> Result<(), AllocError> {
    write!(line, " {number}")
}

/// Goes on with the number of the connection, or a hyphen.
fn push_connection(line: &mut String, number: Option<u64>) -> Result<(), AllocError> {
    match number {
        Some(number) => push_number(line, number),
        None => line.push_str(" -"),
    }
}

/// So many bytes of a text of ASCII, at most.
fn beginning(text: &str, most: usize) -> &str {
    text.get(..most).unwrap_or(text)
}

/// Goes on with what is known of a request, from its method to how long it took.
fn push_request(line: &mut String, said: &Said, path: &str) -> Result<(), AllocError> {
    line.push_str(" ")?;
    line.push_str(said.method)?;
    line.push_str(" ")?;
    line.push_str(path)?;
    push_number(line, u64::from(said.status))?;
    push_number(line, said.came as u64)?;
    push_number(line, said.went as u64)?;
    push_number(line, said.micros)
}

/// Goes on with the end of a line: what failed, or which limit was met.
fn push_why(line: &mut String, said: &Said) -> Result<(), AllocError> {
    match said.limit {
        Some(Limit { most, of }) => {
            let repo = said.repo;
            write!(line, " limit of {most} {of}: {repo}\n")
        }
        None => {
            line.push_str(failure_of(said.status).unwrap_or(""))?;
            line.push_str("\n")
        }
    }
}

/// A line of at most 300 bytes, with its end.
fn shorten(alloc: Global, line: String) -> Result<String, AllocError> {
    if line.len() <= SHORT_LINE {
        return Ok(line);
    }
    match line.get(..SHORT_LINE - 1) {
        Some(beginning) => format!(in alloc; "{beginning}\n"),
        None => Ok(line),
    }
}

/// The line of a request; unless it may be as long as it is, of at most 300 bytes, 100 of them its path.
pub fn line_of<T: Clock>(
    alloc: Global,
    clock: &T,
    said: &Said,
    whole: bool,
) -> Result<String, AllocError> {
    let mut line = time_text(alloc, clock)?;
    push_connection(&mut line, said.number)?;
    if whole {
        push_request(&mut line, said, said.path)?;
        push_why(&mut line, said)?;
        return Ok(line);
    }
    push_request(&mut line, said, beginning(said.path, SHORT_PATH))?;
    push_why(&mut line, said)?;
    shorten(alloc, line)
}

/// The line of a reply that was cut off.
pub fn cut_line<T: Clock>(alloc: Global, clock: &T, cut: &Cut) -> Result<String, AllocError> {
    let mut line = time_text(alloc, clock)?;
    let (number, left) = (cut.number, cut.left);
    write!(
        line,
        " {number} cut off: {left} bytes of a reply were not taken\n"
    )?;
    Ok(line)
}

/// The line that says that the system has no descriptor for a further connection beside so many.
pub fn short_line<T: Clock>(alloc: Global, clock: &T, open: usize) -> Result<String, AllocError> {
    let mut line = time_text(alloc, clock)?;
    write!(
        line,
        " - no open files left beside {open} connections: those that rest give way\n"
    )?;
    Ok(line)
}

/// The line that says how many were left out.
pub fn left_out_line<T: Clock>(alloc: Global, clock: &T, count: u64) -> Result<String, AllocError> {
    let mut line = time_text(alloc, clock)?;
    write!(line, " - {count} lines left out\n")?;
    Ok(line)
}
