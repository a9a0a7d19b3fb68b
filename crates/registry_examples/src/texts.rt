//! Texts of the registry's grammars: what each is read as, as the line of an answer.

use anyhow::{Result, bail};
use oci_documents::{error_text, tags_text};
use oci_types::{Digest, NameFault, Reference, RepoName, Tag, Token, session_number};
use registry_model::{RangeVerdict, Route, number, range_fits};
use std::alloc::{AllocError, Global};

/// The line for what a text is read as, or for why it is none.
macro_rules! line_of {
    ($alloc:expr, $read:expr) => {
        match $read {
            Ok(read) => text_line($alloc, read.as_str()),
            Err(fault) => fault_line($alloc, fault),
        }
    };
}

fn text_line(alloc: Global, text: &str) -> Result<String, AllocError> {
    format!(in alloc; "{text}\r\n")
}

fn fault_line(alloc: Global, fault: NameFault) -> Result<String, AllocError> {
    format!(in alloc; "fault {fault:?}\r\n")
}

fn number_line(alloc: Global, number: Option<u64>) -> Result<String, AllocError> {
    match number {
        Some(number) => format!(in alloc; "{number}\r\n"),
        None => text_line(alloc, "none"),
    }
}

/// The answer to `parse GRAMMAR TEXT`: the text that is read, or why it is none.
pub fn reading_by(alloc: Global, grammar: &str, text: &str) -> Result<String> {
    let line = match grammar {
        "digest" => line_of!(alloc, Digest::parse(alloc, text)),
        "name" => line_of!(alloc, RepoName::parse(alloc, text)),
        "tag" => line_of!(alloc, Tag::parse(alloc, text)),
        "token" => line_of!(alloc, Token::parse(alloc, text)),
        "reference" => reference_line(alloc, text),
        "session" => number_line(alloc, session_number(text)),
        "number" => number_line(alloc, number(text.as_bytes())),
        "path" => route_line(alloc, Route::from_path(text)),
        "sha256" => line_of!(alloc, Digest::of_sha256(alloc, text.as_bytes())),
        "sha512" => line_of!(alloc, Digest::of_sha512(alloc, text.as_bytes())),
        "verify" => return verdict_line(alloc, text),
        "error" => return error_line(alloc, text),
        "tags" => return tags_line(alloc, text),
        "range" => return range_line(alloc, text),
        _ => bail!("no grammar is `{grammar}`"),
    };
    Ok(line?)
}

fn reference_line(alloc: Global, text: &str) -> Result<String, AllocError> {
    match Reference::parse(alloc, text) {
        Ok(Reference::Tag(tag)) => {
            let tag = tag.as_str();
            format!(in alloc; "tag {tag}\r\n")
        }
        Ok(Reference::Digest(digest)) => {
            let digest = digest.as_str();
            format!(in alloc; "digest {digest}\r\n")
        }
        Err(fault) => fault_line(alloc, fault),
    }
}

/// A route's form, and the texts of its name and of what stands behind it, in brackets.
fn route_line(alloc: Global, route: Route) -> Result<String, AllocError> {
    match route {
        Route::NoForm => text_line(alloc, "no form"),
        Route::Base => text_line(alloc, "base"),
        Route::Blob { name, digest } => format!(in alloc; "blob [{name}] [{digest}]\r\n"),
        Route::Uploads { name } => format!(in alloc; "uploads [{name}]\r\n"),
        Route::Session { name, reference } => format!(in alloc;
            "session [{name}] [{reference}]\r\n"
        ),
        Route::Manifest { name, reference } => format!(in alloc;
            "manifest [{name}] [{reference}]\r\n"
        ),
        Route::Tags { name } => format!(in alloc; "tags [{name}]\r\n"),
        Route::Referrers { name, digest } => format!(in alloc; "referrers [{name}] [{digest}]\r\n"),
    }
}

/// The answer to `parse error CODE MESSAGE`: the body of a refusal.
fn error_line(alloc: Global, text: &str) -> Result<String> {
    let (code, message) = text.split_once(' ').unwrap_or((text, ""));
    match error_text(alloc, code, message) {
        Ok(body) => Ok(text_line(alloc, body.as_str())?),
        Err(_) => bail!("no memory for a body"),
    }
}

/// The answer to `parse tags NAME TAG ..`: the body of a page.
fn tags_line(alloc: Global, text: &str) -> Result<String> {
    let mut words = text.split(' ');
    let Ok(name) = RepoName::parse(alloc, words.next().unwrap_or("")) else {
        bail!("`tags` wants a name");
    };
    let mut tags = Vec::new(alloc);
    for word in words {
        match Tag::parse(alloc, word) {
            Ok(tag) => tags.push(tag)?,
            Err(_) => bail!("`{word}` is no tag"),
        }
    }
    match tags_text(alloc, &name, &tags) {
        Ok(body) => Ok(text_line(alloc, body.as_str())?),
        Err(_) => bail!("no memory for a body"),
    }
}

/// The answer to `parse verify DIGEST TEXT`: whether the digest is that of the text.
fn verdict_line(alloc: Global, text: &str) -> Result<String> {
    let Some((digest, text)) = text.split_once(' ') else {
        bail!("`verify` wants a digest and a text");
    };
    let Ok(digest) = Digest::parse(alloc, digest) else {
        bail!("`{digest}` is no digest");
    };
    let verdict = digest.verifies(text.as_bytes());
    Ok(format!(in alloc; "{verdict:?}\r\n")?)
}

/// The answer to `parse range HELD LENGTH TEXT`, where a session holds so many bytes and a chunk has
/// so many, with this `Content-Range`; without one where the text and its space are left out.
fn range_line(alloc: Global, text: &str) -> Result<String> {
    let Some((held, behind)) = text.split_once(' ') else {
        bail!("`range` wants two numbers and a text");
    };
    let verdict: RangeVerdict = match behind.split_once(' ') {
        Some((length, range)) => range_fits(Some(range.as_bytes()), held.parse()?, length.parse()?),
        None => range_fits(None, held.parse()?, behind.parse()?),
    };
    Ok(format!(in alloc; "{verdict:?}\r\n")?)
}
