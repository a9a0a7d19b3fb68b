//! What a log tells of a request.

use std::alloc::{AllocError, Global};

/// The most bytes that are kept of a method and a path.
const LONGEST: usize = 1024;

/// The request in hand, or else the one that was answered last, as a log tells it. It is for people alone:
/// nothing depends on it, and no contract speaks of it.
#[derive(Drop)]
pub struct Exchange {
    line: Vec<u8>,
}

/// Where the method and the path end: behind them comes the query, the version or the end of the line.
fn ends_path(byte: u8, spaces: usize) -> bool {
    let is_space = byte == b' ' && spaces > 0;
    is_space || matches!(byte, b'?' | b'\r' | b'\n')
}

/// The digits of 16.
const DIGITS: [u8; 16] = *b"0123456789ABCDEF";

/// Goes on with a byte: one that could be taken for something else on the line of a log as `%` and two
/// digits.
fn push_shown(line: &mut Vec<u8>, byte: u8) -> Result<(), AllocError> {
    match byte {
        b'"' | b'\\' | 0..=0x1f | 0x7f..=0xff => {
            line.push(b'%')?;
            line.push(DIGITS[usize::from(byte / 16)])?;
            line.push(DIGITS[usize::from(byte % 16)])?;
        }
        _ => line.push(byte)?,
    }
    Ok(())
}

impl Exchange {
    /// No request.
    pub(crate) fn new(alloc: Global) -> Exchange {
        Exchange {
            line: Vec::new(alloc),
        }
    }

    /// The method, a space and the path as it came, without its query, at most 1,024 bytes; each control
    /// character, quote, backslash and byte above ASCII is `%` and two digits. Nothing where no head was
    /// read, or memory was wanting.
    pub fn line(&self) -> &[u8] {
        &self.line
    }

    /// Nothing is known of the request in hand.
    pub(crate) fn forget(&mut self) {
        self.line.clear();
    }

    /// A head was found. Empty lines before it are none of it (RFC 9112, section 2.2).
    pub(crate) fn note_head(&mut self, head: &[u8]) {
        self.forget();
        let mut spaces = 0usize;
        for byte in head.iter() {
            let byte = *byte;
            let none = self.line.is_empty();
            let skipped = none && matches!(byte, b'\r' | b'\n');
            if !skipped {
                if ends_path(byte, spaces) || self.line.len() + 3 > LONGEST {
                    return;
                }
                if byte == b' ' {
                    spaces = spaces.saturating_add(1);
                }
                if push_shown(&mut self.line, byte).is_err() {
                    self.forget();
                    return;
                }
            }
        }
    }
}
