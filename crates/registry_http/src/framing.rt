ghost use Rattle.std.specs.Prelude.{◌≡◌, length, map, All, codes};
ghost use Rattle.httparse.specs.Spans.{header_bytes, IsHeaderWithin};
ghost use Rattle.registry_model.specs.Ask.{text_in};
ghost use Rattle.registry_model.specs.declared.settings.Settings.{Settings};
ghost use Rattle.registry_http.specs.Fields.{values};
ghost use Rattle.registry_http.specs.Framing.{framing_by, body_in, length_of, length_if, coding_by, IsSmall};

use crate::ending::FramingRefusal;
use crate::fields::{same_name, values_of};
use httparse::spans::HeaderSpan;
use registry_model::{Settings, number};

/// How a request's body is framed.
#[derive(Clone, Copy)]
pub enum Framing {
    /// So many bytes.
    Length(usize),
    /// Chunks.
    Chunked,
    Refused(FramingRefusal),
}

/// The body's length by the value of `Content-Length` (RFC 9110, section 8.6): 1 to 19 digits, and no
/// more than the settings allow.
fn length_by(digits: &[u8], settings: Settings) -> Framing
    ensures value { result ≡ length_of settings digits.now }
    ensures small { IsSmall settings result }
{
    match number(digits) {
        Some(length) if length <= settings.most_body() => Framing::Length(length as usize),
        Some(_) => Framing::Refused(FramingRefusal::LengthTooLarge),
        None => Framing::Refused(FramingRefusal::InvalidContentLength),
    }
}

/// The body's length where at most one field states it.
fn length_if_any(digits: Option<&[u8]>, settings: Settings) -> Framing
    ensures value { result ≡ length_if settings (text_in digits.entry) }
    ensures small { IsSmall settings result }
{
    match digits {
        None => Framing::Length(0),
        Some(digits) => length_by(digits, settings),
    }
}

/// How the body is framed where `Transfer-Encoding` stands (RFC 9112, section 6.1): in chunks, where
/// it is one line `chunked`, in any case.
fn coding_of(version: u8, codings: usize, first: Option<&[u8]>, lengths: usize) -> Framing
    ensures value { result ≡ coding_by version codings (text_in first.entry) lengths }
    ensures small { (settings : Settings) → IsSmall settings result }
{
    if version == 0 || lengths > 0 {
        return Framing::Refused(FramingRefusal::TransferEncodingConflict);
    }
    if codings != 1 {
        return Framing::Refused(FramingRefusal::UnknownTransferEncoding);
    }
    match first {
        None => Framing::Refused(FramingRefusal::UnknownTransferEncoding),
        Some(coding) => {
            if same_name(coding, b"chunked") {
                Framing::Chunked
            } else {
                Framing::Refused(FramingRefusal::UnknownTransferEncoding)
            }
        }
    }
}

/// How the body is framed by the fields that say so, or refused (RFC 9112, section 6).
fn body_framing(head: &[u8], fields: &[HeaderSpan], version: u8, settings: Settings) -> Framing
    requires { All (IsHeaderWithin (length head.now)) fields.now }
    ensures value { result ≡ body_in settings version
        (values (codes "transfer-encoding") (map (header_bytes head.now) fields.now))
        (values (codes "content-length") (map (header_bytes head.now) fields.now)) }
    ensures small { IsSmall settings result }
{
    let lengths = values_of(head, fields, b"content-length");
    let codings = values_of(head, fields, b"transfer-encoding");
    if codings.count > 0 {
        return coding_of(version, codings.count, codings.first, lengths.count);
    }
    if lengths.count > 1 {
        return Framing::Refused(FramingRefusal::InvalidContentLength);
    }
    length_if_any(lengths.first, settings)
}

/// How the body is framed by the version, the target and the fields of a head: the first refusal
/// that holds, or the body's length, which is at most what the settings allow (RFC 9112, sections 3.2
/// and 6).
pub fn framing_of(
    head: &[u8],
    fields: &[HeaderSpan],
    version: u8,
    target: &[u8],
    settings: Settings,
) -> Framing
    requires { All (IsHeaderWithin (length head.now)) fields.now }
    ensures value { result ≡ framing_by settings version target.now
        (map (header_bytes head.now) fields.now) }
    ensures small { IsSmall settings result }
{
    let hosts = values_of(head, fields, b"host").count;
    let may_lack_host = version == 0;
    if !(hosts == 1 || hosts == 0 && may_lack_host) {
        return Framing::Refused(FramingRefusal::HostCount);
    }
    if target.first() != Some(&b'/') {
        return Framing::Refused(FramingRefusal::TargetForm);
    }
    body_framing(head, fields, version, settings)
}
