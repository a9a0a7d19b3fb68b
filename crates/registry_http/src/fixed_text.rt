//! Texts that take no memory, since they are the same each time.
ghost use Rattle.std.specs.Prelude.{◌≡◌, Bool, if◌then◌else◌};
ghost use Rattle.registry_model.specs.Answer.{busy_answer, failed_answer};
ghost use Rattle.registry_http.specs.Expecting.{continue_text};
ghost use Rattle.registry_http.specs.ReplyText.{reply_text, refusal_text};
ghost use Rattle.registry_http.specs.Sending.{SendsReply};

use crate::ending::FramingRefusal;
use crate::outgoing::{WriteFault, send};
use std::io::Write;

/// What says that a client may send the body for which it waits (RFC 9110, sections 10.1.1 and 15.2.1).
pub fn continue_text() -> &'static str
    ensures { result.now ≡ continue_text }
{
    "HTTP/1.1 100 Continue\r\n\r\n"
}

const BAD_REQUEST: &str =
    "HTTP/1.1 400 Bad Request\r\nContent-Length: 0\r\nConnection: close\r\n\r\n";

const TOO_LARGE: &str =
    "HTTP/1.1 413 Payload Too Large\r\nContent-Length: 0\r\nConnection: close\r\n\r\n";

const NOT_SERVED: &str =
    "HTTP/1.1 501 Not Implemented\r\nContent-Length: 0\r\nConnection: close\r\n\r\n";

const NO_MEMORY: &str =
    "HTTP/1.1 503 Service Unavailable\r\nContent-Length: 0\r\nConnection: close\r\n\r\n";

/// The text of a refusal: its status line, no body, and that the connection is closed.
pub fn refusal_text(refusal: FramingRefusal) -> &'static str
    ensures { result.now ≡ refusal_text refusal }
{
    match refusal {
        FramingRefusal::UnreadableHead => BAD_REQUEST,
        FramingRefusal::HostCount => BAD_REQUEST,
        FramingRefusal::TargetForm => BAD_REQUEST,
        FramingRefusal::TransferEncodingConflict => BAD_REQUEST,
        FramingRefusal::UnknownTransferEncoding => NOT_SERVED,
        FramingRefusal::InvalidContentLength => BAD_REQUEST,
        FramingRefusal::LengthTooLarge => TOO_LARGE,
        FramingRefusal::UnreadableChunk => BAD_REQUEST,
        FramingRefusal::ChunksTooLarge => TOO_LARGE,
        FramingRefusal::NoBufferMemory => NO_MEMORY,
    }
}

fn failed_text(close: bool) -> &'static str
    ensures { (head : Bool) → result.now ≡ reply_text head close failed_answer }
{
    if close {
        "HTTP/1.1 500 Internal Server Error\r\nContent-Length: 0\r\nConnection: close\r\n\r\n"
    } else {
        "HTTP/1.1 500 Internal Server Error\r\nContent-Length: 0\r\n\r\n"
    }
}

fn busy_text(close: bool) -> &'static str
    ensures { (head : Bool) → result.now ≡ reply_text head close busy_answer }
{
    if close {
        NO_MEMORY
    } else {
        "HTTP/1.1 503 Service Unavailable\r\nContent-Length: 0\r\n\r\n"
    }
}

/// The text of the reply where memory is wanting, 503, or of a service that is spent, 500. With `close` it
/// says that the connection is closed after it.
pub fn failure_text(spent: bool, close: bool) -> &'static str
    ensures { (head : Bool)
        → result.now ≡ reply_text head close (if spent then failed_answer else busy_answer) }
{
    if spent {
        failed_text(close)
    } else {
        busy_text(close)
    }
}

/// Writes a refusal.
pub fn write_refusal<W: Write>(refusal: FramingRefusal, writer: &mut W) -> Result<(), WriteFault>
    ensures { SendsReply result (W.contents writer.old) (W.contents writer.new) (refusal_text refusal) }
{
    match send(writer, refusal_text(refusal).as_bytes()) {
        Ok(()) => Ok(()),
        Err(written) => Err(WriteFault { written }),
    }
}
