//! What the files say: replies with names, settings, noise, and examples, each with its steps.

use crate::requests::Request;
use anyhow::{Result, bail};
use std::alloc::Global;

/// What is asked.
#[derive(Drop)]
pub enum Asked {
    /// Requests, one behind the other on a connection of their own.
    Requests(Vec<Request>),
    /// A command of the administrator's.
    Command(String),
    /// What a text is read as by a grammar, of which the name stands before it.
    Parsing(Vec<u8>),
    /// The first rule that a manifest breaks.
    Fault(Vec<u8>),
    /// What a manifest says.
    Reading(Vec<u8>),
}

/// A question, and the whole answer that it must get.
#[derive(Drop)]
pub struct Step {
    /// The line on which it begins.
    pub line: usize,
    pub asked: Asked,
    pub answer: Vec<u8>,
    /// The status of the reply, where that alone is written of the answer.
    pub status: Option<String>,
    /// How the connection must end; none where no line says so, which is `Closed`.
    pub end: Option<String>,
}

impl Step {
    /// Whether its answer has begun.
    pub fn is_answered(&self) -> bool {
        self.end.is_some() || self.status.is_some() || !self.answer.is_empty()
    }

    /// Adds a line to its last request.
    fn add_line(&mut self, line: &str) -> Result<()> {
        match &mut self.asked {
            Asked::Requests(requests) => match requests.last_mut() {
                Some(request) => request.add_line(line),
                None => bail!("no request has begun"),
            },
            _ => bail!("what is asked has no lines"),
        }
    }

    /// Adds bytes to its answer where that has begun, and else to its last request.
    fn add(&mut self, bytes: &[u8]) -> Result<()> {
        if self.is_answered() {
            self.answer.extend_from_slice(bytes)?;
            return Ok(());
        }
        match &mut self.asked {
            Asked::Requests(requests) => match requests.last_mut() {
                Some(request) => request.add_bytes(bytes),
                None => bail!("no request has begun"),
            },
            Asked::Parsing(text) | Asked::Fault(text) | Asked::Reading(text) => {
                text.extend_from_slice(bytes)?;
                Ok(())
            }
            Asked::Command(_) => bail!("a command has no body"),
        }
    }
}

#[derive(Clone, Copy, Debug, PartialEq, Eq)]
pub enum Kind {
    /// Steps that examples begin with.
    Setting,
    Example,
    /// An answer that examples share.
    Reply,
    /// What others do before each step of an example.
    Noise,
}

/// What comes before the steps of an example: the settings, and the noise that comes before each of them,
/// by their places in the book.
#[derive(Drop)]
pub struct Beginning {
    pub settings: Vec<usize>,
    pub noise: Option<usize>,
}

/// A question to the tables, in SQL, and the whole number that they answer behind the steps of an example.
#[derive(Drop)]
pub struct Rows {
    /// The line on which it stands.
    pub line: usize,
    pub number: i64,
    pub query: String,
}

/// A heading, and the steps below it.
#[derive(Drop)]
pub struct Section {
    pub kind: Kind,
    pub name: String,
    /// The file in which it stands.
    pub file: String,
    /// Its own beginning, and behind it those with which the answers are the same.
    pub beginnings: Vec<Beginning>,
    pub steps: Vec<Step>,
    pub rows: Vec<Rows>,
}

impl Section {
    /// Adds a step whose answer is to come.
    pub fn ask(&mut self, alloc: Global, line: usize, asked: Asked) -> Result<()> {
        self.steps.push(Step {
            line,
            asked,
            answer: Vec::new(alloc),
            status: None,
            end: None,
        })?;
        Ok(())
    }

    /// Adds a request to the connection in hand, or to a new one.
    pub fn send(&mut self, alloc: Global, line: usize, request: Request) -> Result<()> {
        if let Some(step) = self.steps.last_mut() {
            if !step.is_answered() {
                if let Asked::Requests(requests) = &mut step.asked {
                    requests.push(request)?;
                    return Ok(());
                }
            }
        }
        let mut requests = Vec::new(alloc);
        requests.push(request)?;
        self.ask(alloc, line, Asked::Requests(requests))
    }

    /// Adds a line to the request in hand, or to a new connection.
    pub fn send_line(&mut self, alloc: Global, number: usize, line: &str) -> Result<()> {
        let is_in_hand = match self.steps.last() {
            Some(step) => !step.is_answered() && matches!(&step.asked, Asked::Requests(_)),
            None => false,
        };
        if !is_in_hand {
            self.send(alloc, number, Request::raw(alloc))?;
        }
        match self.steps.last_mut() {
            Some(step) => step.add_line(line),
            None => bail!("nothing is asked yet"),
        }
    }

    /// Adds bytes to the answer in hand, or else to the request.
    pub fn add(&mut self, bytes: &[u8]) -> Result<()> {
        match self.steps.last_mut() {
            Some(step) => step.add(bytes),
            None => bail!("nothing is asked yet"),
        }
    }

    /// Adds bytes to the answer.
    pub fn answer(&mut self, bytes: &[u8]) -> Result<()> {
        match self.steps.last_mut() {
            Some(step) => step.answer.extend_from_slice(bytes)?,
            None => bail!("nothing is asked yet"),
        }
        Ok(())
    }

    /// Says the status of the answer, of which nothing else is written.
    pub fn status(&mut self, status: String) -> Result<()> {
        match self.steps.last_mut() {
            Some(step) => step.status = Some(status),
            None => bail!("nothing is asked yet"),
        }
        Ok(())
    }

    /// Says how the connection in hand ends.
    pub fn end(&mut self, how: String) -> Result<()> {
        match self.steps.last_mut() {
            Some(step) => step.end = Some(how),
            None => bail!("nothing is asked yet"),
        }
        Ok(())
    }
}

#[derive(Drop)]
pub struct Book {
    pub sections: Vec<Section>,
}

impl Book {
    /// Whether a section of this kind has this name, of the examples one in this file.
    pub fn has(&self, kind: Kind, name: &str, file: &str) -> bool {
        for section in self.sections.iter() {
            if section.kind == kind
                && section.name.as_str() == name
                && (kind != Kind::Example || section.file.as_str() == file)
            {
                return true;
            }
        }
        false
    }

    /// The section of this kind and name, and its place.
    pub fn find(&self, kind: Kind, name: &str) -> Option<(usize, &Section)> {
        for (place, section) in self.sections.iter().enumerate() {
            if section.kind == kind && section.name.as_str() == name {
                return Some((place, section));
            }
        }
        None
    }
}
