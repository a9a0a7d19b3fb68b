//! The words in braces: `{abc}` is what `let abc = ..` says, `{a * 3}` is `aaa` unless `a` is such a
//! word too, `{sha256:abc}` and `{sha512:abc}` are the digests of the text `abc`.

use anyhow::{Result, bail};
use sha2::{Digest, Sha256, Sha512};
use std::alloc::Global;
use std::collections::BTreeMap;

/// What the names in braces stand for.
#[derive(Drop)]
pub struct Words {
    alloc: Global,
    meanings: BTreeMap<String, String>,
}

impl Words {
    pub fn new(alloc: Global) -> Words {
        Words {
            alloc,
            meanings: BTreeMap::new(alloc),
        }
    }

    /// Has a name stand for a text from here on, in which words may be.
    pub fn define(&mut self, name: &str, text: &str) -> Result<()> {
        let meaning = self.written_out(text)?;
        let name = String::from_str(self.alloc, name)?;
        drop(self.meanings.insert(name, meaning)?);
        Ok(())
    }

    /// The text with each word written out. A brace before `"`, a space, another brace or the end is
    /// itself, as in JSON.
    pub fn written_out(&self, text: &str) -> Result<String> {
        let mut pieces = text.split('{');
        let mut written = String::from_str(self.alloc, pieces.next().unwrap_or(""))?;
        for piece in pieces {
            match piece.chars().next() {
                None | Some('"' | ' ' | '}') => {
                    written.push('{')?;
                    written.push_str(piece)?;
                }
                Some(_) => match piece.split_once('}') {
                    Some((word, behind)) => {
                        written.push_str(self.meaning(word)?.as_str())?;
                        written.push_str(behind)?;
                    }
                    None => bail!("the brace before `{piece}` is not closed"),
                },
            }
        }
        Ok(written)
    }

    fn meaning(&self, word: &str) -> Result<String> {
        let alloc = self.alloc;
        if let Some(meaning) = self.meanings.get(word) {
            return Ok(meaning.clone()?);
        }
        if let Some(text) = word.strip_prefix("sha256:") {
            let encoded = hex::encode(alloc, Sha256::digest(text.as_bytes()))?;
            return Ok(format!(in alloc; "sha256:{encoded}")?);
        }
        if let Some(text) = word.strip_prefix("sha512:") {
            let encoded = hex::encode(alloc, Sha512::digest(text.as_bytes()))?;
            return Ok(format!(in alloc; "sha512:{encoded}")?);
        }
        if let Some((text, count)) = word.rsplit_once(" * ") {
            let repeated = match self.meanings.get(text) {
                Some(meaning) => meaning.as_str(),
                None => text,
            };
            return Ok(repeated.repeat(alloc, count.parse()?)?);
        }
        bail!("`{word}` stands for nothing")
    }
}

/// The bytes of a text in which `\r`, `\n`, `\t` and `\x1f` stand for one byte each.
pub fn unescaped(alloc: Global, text: &str) -> Result<Vec<u8>> {
    let mut pieces = text.split('\\');
    let mut bytes = Vec::new(alloc);
    bytes.extend_from_slice(pieces.next().unwrap_or("").as_bytes())?;
    for piece in pieces {
        let mut chars = piece.chars();
        let byte = match chars.next() {
            Some('r') => b'\r',
            Some('n') => b'\n',
            Some('t') => b'\t',
            Some('x') => match (chars.next().and_then(nibble), chars.next().and_then(nibble)) {
                (Some(high), Some(low)) => (high << 4) | low,
                _ => bail!("`\\x` wants two digits before `{piece}`"),
            },
            _ => bail!("`\\` stands before `{piece}`"),
        };
        bytes.push(byte)?;
        bytes.extend_from_slice(chars.as_str().as_bytes())?;
    }
    Ok(bytes)
}

/// The value of a hexadecimal digit.
fn nibble(digit: char) -> Option<u8> {
    u8::try_from(digit.to_digit(16)?).ok()
}
