ghost use Rattle.std.specs.Prelude.{◌≡◌, length};
ghost use Rattle.registry_conversation.specs.Headings.{FindsHead};

use httparse::spans::HeaderSpan;
use registry_http::expecting::awaits;
use registry_http::framing::{Framing, framing_of};
use registry_http::head::{Parsed, parse_head};
use registry_http::limits::MOST_FIELDS;
use registry_model::Settings;

/// A head at the front of the unread bytes: how long it is, and what follows from its fields.
#[derive(Clone, Copy)]
pub struct Heading {
    pub len: usize,
    pub framing: Framing,
    /// The client waits for a 100 before it sends the body.
    pub awaits: bool,
}

/// What the unread bytes begin with.
pub enum FoundHead {
    Whole(Heading),
    /// No whole head yet.
    NotYet,
    /// No head, or one of too many fields, whatever bytes follow.
    Never,
}

/// Looks for the head of a request at the front of the unread bytes (RFC 9112, section 2.1; the limits
/// are the profile's, and for its body that of the settings).
pub fn find_head(unread: &[u8], fields: &mut [HeaderSpan], settings: Settings) -> FoundHead
    requires { length fields.old ≡ 8192 }
    ensures { FindsHead settings result unread.now }
{
    let spans = match parse_head(unread, fields) {
        Parsed::Whole(spans) => spans,
        Parsed::NotYet => return FoundHead::NotYet,
        Parsed::Never => return FoundHead::Never,
    };
    if spans.headers > MOST_FIELDS {
        return FoundHead::Never;
    }
    let head = &unread[..spans.len];
    let found = &fields[..spans.headers];
    let framing = framing_of(head, found, spans.version, spans.path.of(head), settings);
    FoundHead::Whole(Heading {
        len: spans.len,
        framing,
        awaits: awaits(head, found, spans.version, framing),
    })
}
