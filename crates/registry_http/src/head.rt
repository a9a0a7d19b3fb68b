ghost use Rattle.std.specs.Prelude.{◌≡◌, length, take};
ghost use Rattle.registry_http.specs.Limits.{longest_head};
ghost use Rattle.registry_http.specs.Reading.{Parses};

use crate::limits::LONGEST_HEAD;
use httparse::Status;
use httparse::spans::{HeaderSpan, RequestSpans, parse_request};

/// What the buffer begins with.
pub enum Parsed {
    /// A whole head.
    Whole(RequestSpans),
    /// No whole head yet.
    NotYet,
    /// No head, whatever bytes follow.
    Never,
}

/// The bytes in which a head must stand.
pub fn head_bytes(buffer: &[u8]) -> &[u8]
    ensures { result.now ≡ take longest_head buffer.now }
{
    if buffer.len() < LONGEST_HEAD {
        buffer
    } else {
        &buffer[..LONGEST_HEAD]
    }
}

/// Looks for a head at the front of the buffer (RFC 9112, section 2.1).
pub fn parse_head(buffer: &[u8], headers: &mut [HeaderSpan]) -> Parsed
    requires { length headers.old ≡ 8192 }
    ensures { Parses result buffer.now headers.new }
{
    let seen = head_bytes(buffer);
    match parse_request(seen, headers) {
        Ok(Status::Complete(spans)) => Parsed::Whole(spans),
        Ok(Status::Partial) => {
            if seen.len() == LONGEST_HEAD {
                Parsed::Never
            } else {
                Parsed::NotYet
            }
        }
        // So few bytes have no room for too many fields.
        Err(_) => Parsed::Never,
    }
}
