use crate::book::Kind;
use anyhow::{Result, bail};

/// A line of a file: its first word says what the rest is.
#[derive(Clone, Copy)]
pub enum Line<'a> {
    /// Empty, or a comment.
    Blank,
    /// `let NAME = TEXT`: the text for which `{NAME}` stands from here on.
    Let {
        name: &'a str,
        text: &'a str,
    },
    /// `setting NAME`, `example NAME`, `noise NAME` or `reply NAME`, which may begin `after` a setting.
    Heading {
        kind: Kind,
        name: &'a str,
        after: Option<&'a str>,
    },
    /// A line below a heading: its first word, and the rest.
    Part {
        part: Part<'a>,
        text: &'a str,
    },
}

/// The first word of a line below a heading.
#[derive(Clone, Copy)]
pub enum Part<'a> {
    /// `TOKEN> METHOD TARGET`, a request under a token; `nobody>` has none.
    Request(&'a str),
    /// `connection`, a new one, of which every byte is written out.
    Connection,
    /// `> LINE`, a line of a request.
    Sent,
    /// `< LINE`, a line of an answer.
    Received,
    /// `<< NAME`, the answer of that name.
    Named,
    /// `| TEXT`, text without an end of line, in a request or an answer.
    Text,
    /// `bytes TEXT`, the same with `\r`, `\n`, `\t` and `\x1f` in it.
    Bytes,
    /// `status NUMBER`, the status of a reply of which nothing else is written.
    Status,
    /// `end HOW`, how the connection ends.
    End,
    /// `alike SETTING NOISE`: behind that setting, and with that noise, the answers are the same.
    Alike,
    /// `rows NUMBER QUERY`, what the tables answer behind the steps.
    Rows,
    /// `admin COMMAND`, a command of the administrator's.
    Admin,
    /// `parse GRAMMAR TEXT`, which asks for what the text is read as; with escapes as in `bytes`.
    Parse,
    /// `judge MANIFEST`, which asks for the first rule that it breaks.
    Judge,
    /// `read MANIFEST`, which asks for what it says.
    Read,
}

fn heading(kind: Kind, rest: &str) -> Line<'_> {
    match rest.split_once(" after ") {
        Some((name, setting)) => Line::Heading {
            kind,
            name,
            after: Some(setting),
        },
        None => Line::Heading {
            kind,
            name: rest,
            after: None,
        },
    }
}

impl<'a> Line<'a> {
    /// Reads a line. Of what follows the first word one space is dropped, and the rest is kept.
    pub fn parse(text: &'a str) -> Result<Line<'a>> {
        let (word, rest) = text.split_once(' ').unwrap_or((text, ""));
        match word {
            "" => Ok(Line::Blank),
            "setting" => Ok(heading(Kind::Setting, rest)),
            "example" => Ok(heading(Kind::Example, rest)),
            "noise" => Ok(heading(Kind::Noise, rest)),
            "reply" => Ok(heading(Kind::Reply, rest)),
            "let" => match rest.split_once(" = ") {
                Some((name, text)) => Ok(Line::Let { name, text }),
                None => bail!("`let` wants a name, ` = ` and a text"),
            },
            _ if word.starts_with('#') => Ok(Line::Blank),
            _ => match Part::parse(word) {
                Some(part) => Ok(Line::Part { part, text: rest }),
                None => bail!("no line begins with `{word}`"),
            },
        }
    }
}

impl<'a> Part<'a> {
    fn parse(word: &'a str) -> Option<Part<'a>> {
        let part = match word {
            "connection" => Part::Connection,
            ">" => Part::Sent,
            "<" => Part::Received,
            "<<" => Part::Named,
            "|" => Part::Text,
            "bytes" => Part::Bytes,
            "status" => Part::Status,
            "end" => Part::End,
            "alike" => Part::Alike,
            "rows" => Part::Rows,
            "admin" => Part::Admin,
            "parse" => Part::Parse,
            "judge" => Part::Judge,
            "read" => Part::Read,
            _ => Part::Request(word.strip_suffix('>')?),
        };
        Some(part)
    }
}
