ghost use Rattle.std.specs.Prelude.{◌≡◌, length, map, All};
ghost use Rattle.httparse.specs.Spans.{header_bytes, IsHeaderWithin};
ghost use Rattle.registry_model.specs.Ask.{text_in};
ghost use Rattle.registry_http.specs.Expecting.{has_body, expects_if, awaits_by};

use crate::fields::{same_name, values_of};
use crate::framing::Framing;
use httparse::spans::HeaderSpan;

/// Whether a body is to come.
fn has_body(framing: Framing) -> bool
    ensures { result ≡ has_body framing }
{
    match framing {
        Framing::Length(count) => count > 0,
        Framing::Chunked => true,
        Framing::Refused(_) => false,
    }
}

/// Whether the value is `100-continue`, in any case.
fn expects_if(value: Option<&[u8]>) -> bool
    ensures { result ≡ expects_if (text_in value.entry) }
{
    match value {
        None => false,
        Some(value) => same_name(value, b"100-continue"),
    }
}

/// Whether the client waits for a 100 before it sends the body: in HTTP/1.1, where the first
/// `Expect` is `100-continue` and a body is to come (RFC 9110, section 10.1.1).
pub fn awaits(head: &[u8], fields: &[HeaderSpan], version: u8, framing: Framing) -> bool
    requires { All (IsHeaderWithin (length head.now)) fields.now }
    ensures { result ≡ awaits_by version (map (header_bytes head.now) fields.now) framing }
{
    let is_new = version == 1;
    let expects = expects_if(values_of(head, fields, b"expect").first);
    is_new && expects && has_body(framing)
}
