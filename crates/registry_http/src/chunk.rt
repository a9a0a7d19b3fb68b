ghost use Rattle.std.specs.Prelude.{◌≡◌, take};
ghost use Rattle.registry_http.specs.Limits.{longest_chunk_line};
ghost use Rattle.registry_http.specs.Taking.{FindsLine};

use crate::limits::LONGEST_CHUNK_LINE;
use httparse::{Status, parse_chunk_size};

/// The line of a chunk: how long it is, and how long its chunk is.
#[derive(Clone, Copy)]
pub struct Line {
    pub len: usize,
    pub size: u64,
}

/// What the unread bytes begin with.
pub enum FoundLine {
    /// The line of a chunk.
    Whole(Line),
    /// No whole line yet.
    NotYet,
    /// No line, whatever bytes follow.
    Never,
}

/// The bytes in which the line of a chunk must stand.
fn line_bytes(unread: &[u8]) -> &[u8]
    ensures { result.now ≡ take longest_chunk_line unread.now }
{
    if unread.len() < LONGEST_CHUNK_LINE {
        unread
    } else {
        &unread[..LONGEST_CHUNK_LINE]
    }
}

/// Looks for the line of a chunk at the front of the unread bytes (RFC 9112, section 7.1).
pub fn find_line(unread: &[u8]) -> FoundLine
    ensures { FindsLine result unread.now }
{
    let seen = line_bytes(unread);
    match parse_chunk_size(seen) {
        Ok(Status::Complete((len, size))) => FoundLine::Whole(Line { len, size }),
        Ok(Status::Partial) => {
            if seen.len() == LONGEST_CHUNK_LINE {
                FoundLine::Never
            } else {
                FoundLine::NotYet
            }
        }
        Err(_) => FoundLine::Never,
    }
}
