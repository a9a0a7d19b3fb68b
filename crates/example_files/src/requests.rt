use anyhow::Result;
use std::alloc::Global;

/// The bytes of a request. A line `TOKEN> METHOD TARGET` gives its first lines, and its
/// `Content-Length` follows from its body, unless the end of the head is written out.
#[derive(Drop)]
pub struct Request {
    /// Lines of a head whose end is not written out.
    head: String,
    /// What comes behind them: the body, or all bytes from the end of the head on.
    rest: Vec<u8>,
    /// Whether the end of the head is written out.
    is_whole: bool,
}

impl Request {
    /// A request of which every byte is written out.
    pub fn raw(alloc: Global) -> Request {
        Request {
            head: String::new(alloc),
            rest: Vec::new(alloc),
            is_whole: true,
        }
    }

    /// A request under a token; `nobody` has none.
    pub fn of(alloc: Global, token: &str, line: &str) -> Result<Request> {
        let mut head = format!(in alloc; "{line} HTTP/1.1\r\nHost: r\r\n")?;
        if token != "nobody" {
            head.push_str("Authorization: Bearer ")?;
            head.push_str(token)?;
            head.push_str("\r\n")?;
        }
        Ok(Request {
            head,
            rest: Vec::new(alloc),
            is_whole: false,
        })
    }

    /// Adds a line and its end: to the head, up to the empty line or the body, and else behind it.
    pub fn add_line(&mut self, line: &str) -> Result<()> {
        if self.is_whole || !self.rest.is_empty() {
            self.rest.extend_from_slice(line.as_bytes())?;
            self.rest.extend_from_slice(b"\r\n")?;
        } else {
            self.head.push_str(line)?;
            self.head.push_str("\r\n")?;
            self.is_whole = line.is_empty();
        }
        Ok(())
    }

    /// Adds bytes of the body.
    pub fn add_bytes(&mut self, bytes: &[u8]) -> Result<()> {
        self.rest.extend_from_slice(bytes)?;
        Ok(())
    }

    /// Writes its bytes behind others.
    pub fn write_to(&self, alloc: Global, input: &mut Vec<u8>) -> Result<()> {
        input.extend_from_slice(self.head.as_bytes())?;
        if !self.is_whole {
            let length = self.rest.len();
            let field = format!(in alloc; "Content-Length: {length}\r\n\r\n")?;
            input.extend_from_slice(field.as_bytes())?;
        }
        input.extend_from_slice(self.rest.as_slice())?;
        Ok(())
    }
}
