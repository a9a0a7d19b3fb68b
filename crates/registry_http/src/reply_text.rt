ghost use Rattle.std.specs.Prelude.{◌≡◌, true, false, [], option_map, unwrap_or};
ghost use Rattle.registry_model.specs.Heads.{is_sent};
ghost use Rattle.http.specs.StatusCode.{IsStatusCode, reason_phrase};
ghost use Rattle.registry_model.specs.Answer.{answer_of, content_of, code_of, owned, challenge_text};
ghost use Rattle.registry_model.specs.Ask.{text_in};
ghost use Rattle.registry_http.specs.ReplyText.{status_line, field, field_if, length_of, length_field, close_field, sent_text, body_text, head_text};
ghost use Rattle.registry_http.specs.Sending.{GoesOn, SendsReply};

use crate::outgoing::{Outgoing, WriteFault};
use http::StatusCode;
use itoa::Buffer;
use oci_types::Digest;
use registry_model::{Body, Challenge, Reply, Status};
use std::io::Write;
use std::mem;

/// The reason phrase of a status code, empty where it has none.
fn reason(status: StatusCode) -> &'static str
    ensures { result.now ≡ unwrap_or (reason_phrase status) [] }
{
    match status.canonical_reason() {
        Some(reason) => reason,
        None => "",
    }
}

impl Outgoing {
    /// Goes on with the status line of a code (RFC 9112, section 4).
    fn put_status<W: Write>(&mut self, writer: &mut W, code: u16)
        requires { IsStatusCode code }
        ensures { GoesOn self.old self.new (W.contents writer.old) (W.contents writer.new)
            (status_line code) }
    {
        if let Ok(status) = StatusCode::from_u16(code) {
            self.put(writer, b"HTTP/1.1 ");
            self.put(writer, status.as_str().as_bytes());
            self.put(writer, b" ");
            self.put(writer, reason(status).as_bytes());
            self.put(writer, b"\r\n");
        }
    }

    /// Goes on with a field line (RFC 9112, section 5).
    fn put_field<W: Write>(&mut self, writer: &mut W, name: &[u8], value: &[u8])
        ensures { GoesOn self.old self.new (W.contents writer.old) (W.contents writer.new)
            (field name.now value.now) }
    {
        self.put(writer, name);
        self.put(writer, b": ");
        self.put(writer, value);
        self.put(writer, b"\r\n");
    }

    /// Goes on with a field line, where there is a value.
    fn put_if<W: Write>(&mut self, writer: &mut W, name: &[u8], value: Option<&str>)
        ensures { GoesOn self.old self.new (W.contents writer.old) (W.contents writer.new)
            (field_if name.now (text_in value.entry)) }
    {
        if let Some(value) = value {
            self.put_field(writer, name, value.as_bytes());
        }
    }

    /// Goes on with a field line, where there is a string.
    fn put_string<W: Write>(&mut self, writer: &mut W, name: &[u8], value: &Option<String>)
        ensures { GoesOn self.old self.new (W.contents writer.old) (W.contents writer.new)
            (field_if name.now (owned value.now)) }
    {
        if let Some(value) = value {
            self.put_field(writer, name, value.as_bytes());
        }
    }

    /// Goes on with a field line, where there is a digest.
    fn put_digest<W: Write>(&mut self, writer: &mut W, name: &[u8], value: &Option<Digest>)
        ensures { GoesOn self.old self.new (W.contents writer.old) (W.contents writer.new)
            (field_if name.now value.now) }
    {
        if let Some(value) = value {
            self.put_field(writer, name, value.as_str().as_bytes());
        }
    }

    /// Goes on with a field line, where there is a challenge.
    fn put_challenge<W: Write>(&mut self, writer: &mut W, name: &[u8], value: &Option<Challenge>)
        ensures { GoesOn self.old self.new (W.contents writer.old) (W.contents writer.new)
            (field_if name.now (option_map challenge_text value.now)) }
    {
        match value {
            Some(Challenge::Constant(text)) => self.put_field(writer, name, text.as_bytes()),
            Some(Challenge::Made(text)) => self.put_field(writer, name, text.as_bytes()),
            None => {}
        }
    }

    /// Goes on with the length of a body of this status.
    fn put_length<W: Write>(&mut self, writer: &mut W, status: Status, body: &Body)
        ensures { GoesOn self.old self.new (W.contents writer.old) (W.contents writer.new)
            (length_field (code_of status) (length_of (content_of body.now))) }
    {
        if status.code() != 204 {
            let mut digits = Buffer::new();
            let length = digits.format(body_length(body));
            self.put_field(writer, b"Content-Length", length.as_bytes());
        }
    }

    /// Goes on with the field that says whether the connection is closed after the reply.
    fn put_close<W: Write>(&mut self, writer: &mut W, close: bool)
        ensures { GoesOn self.old self.new (W.contents writer.old) (W.contents writer.new)
            (close_field close) }
    {
        if close {
            self.put(writer, b"Connection: close\r\n");
        }
    }
}

/// The bytes that are sent of a body.
pub fn body_bytes(body: &Body) -> &[u8]
    ensures { result.now ≡ sent_text (content_of body.now) }
{
    match body {
        Body::Constant(text) => text.as_bytes(),
        Body::Owned(bytes) => bytes.as_slice(),
        Body::Shared(bytes) => bytes.as_slice(),
        Body::Unsent(_) => b"",
    }
}

/// How long a body is, also one that is not sent.
fn body_length(body: &Body) -> u64
    ensures { result ≡ length_of (content_of body.now) }
{
    match body {
        Body::Constant(text) => text.len() as u64,
        Body::Owned(bytes) => bytes.len() as u64,
        Body::Shared(bytes) => bytes.len() as u64,
        Body::Unsent(length) => *length,
    }
}

/// Writes the head of a reply (RFC 9112, sections 2.1 and 4): the status line, the fields in the profile's
/// order and an empty line. With `close` it says that the connection is closed after the reply.
///
/// Takes no memory. Fails only where the writer does, and says how many bytes were written before.
pub fn write_head<W: Write>(reply: &Reply, close: bool, writer: &mut W) -> Result<(), WriteFault>
    ensures { SendsReply result (W.contents writer.old) (W.contents writer.new)
        (head_text close (answer_of reply.now)) }
{
    let mut out = Outgoing::new();
    out.put_status(writer, reply.status.code());
    out.put_length(writer, reply.status, &reply.body);
    out.put_if(writer, b"Content-Type", reply.content_type);
    out.put_if(writer, b"Cache-Control", reply.caching);
    out.put_digest(writer, b"Docker-Content-Digest", &reply.digest);
    out.put_string(writer, b"Location", &reply.location);
    out.put_string(writer, b"Range", &reply.range);
    out.put_digest(writer, b"OCI-Subject", &reply.subject);
    out.put_if(writer, b"OCI-Filters-Applied", reply.filters);
    out.put_string(writer, b"Link", &reply.link);
    out.put_if(writer, b"Allow", reply.allow);
    out.put_challenge(writer, b"WWW-Authenticate", &reply.challenge);
    out.put_close(writer, close);
    out.put(writer, b"\r\n");
    out.finish(writer)
}

/// What is sent of a reply behind its head: the body as it is. With `head` there is none (RFC 9110, section
/// 9.3.2). A reply that has the length of its body alone is one to HEAD.
pub fn sent_body(reply: Reply, head: bool) -> Body
    requires whole { head ≡ false → is_sent (answer_of reply).body ≡ true }
    ensures { sent_text (content_of result) ≡ body_text head (answer_of reply).body }
{
    let mut reply = reply;
    if head {
        Body::Constant("")
    } else {
        mem::replace(&mut reply.body, Body::Constant(""))
    }
}
