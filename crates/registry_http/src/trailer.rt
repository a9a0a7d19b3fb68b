ghost use Rattle.std.specs.Prelude.{◌≡◌, length};
ghost use Rattle.registry_http.specs.Taking.{FindsTrailer};

use crate::head::head_bytes;
use crate::limits::{LONGEST_HEAD, MOST_FIELDS};
use httparse::Status;
use httparse::spans::{HeaderSpan, parse_headers};

/// What the unread bytes begin with.
pub enum FoundTrailer {
    /// A trailer of so many bytes.
    Whole(usize),
    /// No whole trailer yet.
    NotYet,
    /// No trailer, whatever bytes follow.
    Never,
}

/// Looks for a trailer at the front of the unread bytes, of as many bytes and fields as a head may
/// have (RFC 9112, section 7.1.2; the limits are the profile's).
pub fn find_trailer(unread: &[u8], fields: &mut [HeaderSpan]) -> FoundTrailer
    requires { length fields.old ≡ 8192 }
    ensures { FindsTrailer result unread.now }
{
    let seen = head_bytes(unread);
    match parse_headers(seen, fields) {
        Ok(Status::Complete((len, count))) => {
            if count > MOST_FIELDS {
                FoundTrailer::Never
            } else {
                FoundTrailer::Whole(len)
            }
        }
        Ok(Status::Partial) => {
            if seen.len() == LONGEST_HEAD {
                FoundTrailer::Never
            } else {
                FoundTrailer::NotYet
            }
        }
        // So few bytes have no room for too many fields.
        Err(_) => FoundTrailer::Never,
    }
}
