ghost use Rattle.std.specs.Prelude.{◌≡◌, ◌==◌, not, position, length, map, All};
ghost use Rattle.httparse.specs.Spans.{header_bytes, IsHeaderWithin};
ghost use Rattle.registry_model.specs.Ask.{text_in};
ghost use Rattle.registry_http.specs.Asking.{skip_spaces, text_if_utf8, text_if, authorization, behind_scheme, credentials, token_in, basic_in, host_in};

use crate::fields::{same_name, values_of};
use httparse::spans::HeaderSpan;
use std::str;

/// The first place of a byte that is no space.
fn find_other(bytes: &[u8]) -> Option<usize>
    ensures { result ≡ position (λ b. not (b == 32)) bytes.now }
{
    bytes.iter().position(|byte| *byte != b' ')
}

/// What follows the spaces at the front.
fn after_spaces(bytes: &[u8]) -> &[u8]
    ensures { result.now ≡ skip_spaces bytes.now }
{
    match find_other(bytes) {
        Some(at) => &bytes[at..],
        None => b"",
    }
}

/// The bytes as text.
fn text_if_valid(bytes: &[u8]) -> Option<&str>
    ensures { text_in result ≡ text_if_utf8 bytes.now }
{
    match str::from_utf8(bytes) {
        Ok(text) => Some(text),
        Err(_) => None,
    }
}

/// What stands behind a scheme, in any case, and one or more spaces (RFC 9110, section 11.4).
fn behind_scheme<'a>(value: &'a [u8], scheme: &[u8]) -> Option<&'a [u8]>
    ensures { text_in result ≡ behind_scheme scheme.now value.now }
{
    if value.len() <= scheme.len() {
        return None;
    }
    let (name, others) = value.split_at(scheme.len());
    if same_name(name, scheme) && others[0] == b' ' {
        Some(after_spaces(others))
    } else {
        None
    }
}

/// The value of the one `Authorization` field.
fn authorization<'a>(head: &'a [u8], fields: &[HeaderSpan]) -> Option<&'a [u8]>
    requires { All (IsHeaderWithin (length head.now)) fields.now }
    ensures { text_in result ≡ authorization (map (header_bytes head.now) fields.now) }
{
    let found = values_of(head, fields, b"authorization");
    if found.count == 1 { found.first } else { None }
}

/// The credentials of a scheme, where exactly one `Authorization` field stands, and that of this scheme.
fn credentials<'a>(head: &'a [u8], fields: &[HeaderSpan], scheme: &[u8]) -> Option<&'a [u8]>
    requires { All (IsHeaderWithin (length head.now)) fields.now }
    ensures { text_in result
        ≡ credentials scheme.now (authorization (map (header_bytes head.now) fields.now)) }
{
    match authorization(head, fields) {
        None => None,
        Some(value) => behind_scheme(value, scheme),
    }
}

/// The bytes as text, where there are any.
fn text_if(bytes: Option<&[u8]>) -> Option<&str>
    ensures { text_in result ≡ text_if (text_in bytes.entry) }
{
    match bytes {
        None => None,
        Some(bytes) => text_if_valid(bytes),
    }
}

/// The text of the bearer token, where exactly one `Authorization` field stands and has the form of
/// one (RFC 6750, section 2.1). Whether the text is a token is left open.
pub fn token<'a>(head: &'a [u8], fields: &[HeaderSpan]) -> Option<&'a str>
    requires { All (IsHeaderWithin (length head.now)) fields.now }
    ensures { text_in result ≡ token_in (map (header_bytes head.now) fields.now) }
{
    text_if(credentials(head, fields, b"Bearer"))
}

/// The credentials of the scheme `Basic`, as they stand, where exactly one `Authorization` field stands
/// (RFC 7617, section 2). What they hold is left open.
pub fn basic<'a>(head: &'a [u8], fields: &[HeaderSpan]) -> Option<&'a [u8]>
    requires { All (IsHeaderWithin (length head.now)) fields.now }
    ensures { text_in result ≡ basic_in (map (header_bytes head.now) fields.now) }
{
    credentials(head, fields, b"Basic")
}

/// The first value of `Host`, where it is UTF-8 (RFC 9110, section 7.2).
pub fn host<'a>(head: &'a [u8], fields: &[HeaderSpan]) -> Option<&'a str>
    requires { All (IsHeaderWithin (length head.now)) fields.now }
    ensures { text_in result ≡ host_in (map (header_bytes head.now) fields.now) }
{
    text_if(values_of(head, fields, b"host").first)
}
