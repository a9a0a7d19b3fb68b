ghost use Rattle.std.specs.Prelude.{◌≡◌, length, map, All};
ghost use Rattle.httparse.specs.Grammar.{is_ows, trim_ows};
ghost use Rattle.httparse.specs.Spans.{header_bytes, IsHeaderWithin};
ghost use Rattle.registry_http.specs.Fields.{lists_close, closes_by};

use crate::fields::same_name;
use httparse::spans::HeaderSpan;

/// Whether the byte is a space or a tab (RFC 9110, section 5.6.3).
fn is_ows(byte: u8) -> bool
    ensures { result ≡ is_ows byte }
{
    byte == b'\t' || byte == b' '
}

/// The word without the spaces and tabs at its ends.
fn trim(word: &[u8]) -> &[u8]
    ensures { result.now ≡ trim_ows word.now }
{
    let mut start = 0;
    let mut end = word.len();
    while start < end && is_ows(word[start]) {
        start += 1;
    }
    while start < end && is_ows(word[end - 1]) {
        end -= 1;
    }
    &word[start..end]
}

/// Whether `close` is among the words between the commas of a value (RFC 9112, section 9.6).
fn lists_close(value: &[u8]) -> bool
    ensures { result ≡ lists_close value.now }
{
    value
        .split(|byte| *byte == b',')
        .any(|word| same_name(trim(word), b"close"))
}

/// Whether the connection is closed after the reply: in HTTP/1.0, or where a `Connection` field
/// lists `close` (RFC 9112, section 9.3).
pub fn closes(head: &[u8], fields: &[HeaderSpan], version: u8) -> bool
    requires { All (IsHeaderWithin (length head.now)) fields.now }
    ensures { result ≡ closes_by version (map (header_bytes head.now) fields.now) }
{
    if version == 0 {
        return true;
    }
    for field in fields {
        if same_name(field.name.of(head), b"connection") && lists_close(field.value.of(head)) {
            return true;
        }
    }
    false
}
