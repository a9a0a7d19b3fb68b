use crate::book::{Asked, Beginning, Book, Kind, Rows, Section, Step};
use crate::line::{Line, Part};
use crate::requests::Request;
use crate::words::{Words, unescaped};
use anyhow::{Context, Result, bail};
use std::alloc::Global;

/// Reads files, one after the other, into one book.
#[derive(Drop)]
pub struct Reader {
    alloc: Global,
    words: Words,
    book: Book,
}

impl Reader {
    pub fn new(alloc: Global) -> Reader {
        let sections = Vec::new(alloc);
        Reader {
            alloc,
            words: Words::new(alloc),
            book: Book { sections },
        }
    }

    pub fn into_book(self) -> Book {
        self.book
    }

    /// Reads a file. An error names it and the line.
    pub fn read(&mut self, file: &str, text: &str) -> Result<()> {
        for (place, line) in text.lines().enumerate() {
            let number = place.saturating_add(1);
            self.take(file, number, line)
                .context(format_args!("{file}:{number}"))?;
        }
        Ok(())
    }

    /// Takes one line.
    fn take(&mut self, file: &str, number: usize, text: &str) -> Result<()> {
        match Line::parse(text)? {
            Line::Blank => Ok(()),
            Line::Let { name, text } => self.words.define(name, text),
            Line::Heading { kind, name, after } => {
                let section = self.section(file, kind, name, after)?;
                self.book.sections.push(section)?;
                Ok(())
            }
            Line::Part {
                part: Part::Named,
                text,
            } => self.take_named(text),
            Line::Part {
                part: Part::Alike,
                text,
            } => self.take_alike(text),
            Line::Part { part, text } => self.take_part(number, part, text),
        }
    }

    /// A section below a heading. Examples of other files may have its name.
    fn section(&self, file: &str, kind: Kind, name: &str, after: Option<&str>) -> Result<Section> {
        let alloc = self.alloc;
        if self.book.has(kind, name, file) {
            bail!("there is another `{name}`");
        }
        let mut section = Section {
            kind,
            name: String::from_str(alloc, name)?,
            file: String::from_str(alloc, file)?,
            beginnings: Vec::new(alloc),
            steps: Vec::new(alloc),
            rows: Vec::new(alloc),
        };
        section.beginnings.push(self.beginning(after, None)?)?;
        if kind == Kind::Reply {
            section.ask(alloc, 0, Asked::Requests(Vec::new(alloc)))?;
        }
        Ok(section)
    }

    /// What comes before the steps of what begins after a setting, with noise or without.
    fn beginning(&self, after: Option<&str>, noise: Option<&str>) -> Result<Beginning> {
        let mut settings = Vec::new(self.alloc);
        if let Some(before) = after {
            let Some((place, setting)) = self.book.find(Kind::Setting, before) else {
                bail!("no setting is `{before}`");
            };
            if let Some(first) = setting.beginnings.first() {
                settings.extend_from_slice(first.settings.as_slice())?;
            }
            settings.push(place)?;
        }
        let Some(name) = noise else {
            let noise = None;
            return Ok(Beginning { settings, noise });
        };
        let Some((place, _)) = self.book.find(Kind::Noise, name) else {
            bail!("no noise is `{name}`");
        };
        let noise = Some(place);
        Ok(Beginning { settings, noise })
    }

    /// Takes `alike SETTING NOISE`.
    fn take_alike(&mut self, text: &str) -> Result<()> {
        let Some((setting, noise)) = text.split_once(' ') else {
            bail!("`alike` wants a setting and a noise");
        };
        let beginning = self.beginning(Some(setting), Some(noise))?;
        match self.book.sections.last_mut() {
            Some(section) => section.beginnings.push(beginning)?,
            None => bail!("no example has begun"),
        }
        Ok(())
    }

    /// Takes `<< NAME`.
    fn take_named(&mut self, name: &str) -> Result<()> {
        let Some((_, reply)) = self.book.find(Kind::Reply, name) else {
            bail!("no reply is `{name}`");
        };
        let mut answer = Vec::new(self.alloc);
        for step in reply.steps.iter() {
            answer.extend_from_slice(step.answer.as_slice())?;
        }
        match self.book.sections.last_mut() {
            Some(section) => section.answer(answer.as_slice()),
            None => bail!("no example has begun"),
        }
    }

    /// Takes a line below a heading.
    fn take_part(&mut self, number: usize, part: Part, text: &str) -> Result<()> {
        let alloc = self.alloc;
        let text = self.words.written_out(text)?;
        let Some(section) = self.book.sections.last_mut() else {
            bail!("no example has begun");
        };
        match part {
            Part::Request(token) => {
                let request = Request::of(alloc, token, text.as_str())?;
                section.send(alloc, number, request)
            }
            Part::Connection => {
                let requests = vec![in alloc; Request::raw(alloc)]?;
                section.ask(alloc, number, Asked::Requests(requests))
            }
            Part::Sent => section.send_line(alloc, number, text.as_str()),
            Part::Rows => {
                section.rows.push(rows(alloc, number, text.as_str())?)?;
                Ok(())
            }
            Part::Admin => section.ask(alloc, number, Asked::Command(text)),
            Part::Parse => {
                let bytes = unescaped(alloc, text.as_str())?;
                section.ask(alloc, number, Asked::Parsing(bytes))
            }
            Part::Judge => section.ask(alloc, number, Asked::Fault(text.into_bytes())),
            Part::Read => section.ask(alloc, number, Asked::Reading(text.into_bytes())),
            _ => take_answer(alloc, section, part, text),
        }
    }
}

/// Takes a line of an answer, or of a body.
fn take_answer(alloc: Global, section: &mut Section, part: Part, text: String) -> Result<()> {
    match part {
        Part::Received => {
            section.answer(text.as_bytes())?;
            section.answer(b"\r\n")
        }
        Part::Text => section.add(text.as_bytes()),
        Part::Bytes => section.add(unescaped(alloc, text.as_str())?.as_slice()),
        Part::Status => section.status(text),
        Part::End => section.end(text),
        _ => bail!("this is no line of an answer"),
    }
}

/// `NUMBER QUERY`.
fn rows(alloc: Global, line: usize, text: &str) -> Result<Rows> {
    let Some((number, query)) = text.split_once(' ') else {
        bail!("`rows` wants a number and a query");
    };
    Ok(Rows {
        line,
        number: number.parse()?,
        query: String::from_str(alloc, query)?,
    })
}
