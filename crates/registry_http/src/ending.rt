ghost use Rattle.std.specs.Prelude.{◌≡◌};
ghost use Rattle.registry_http.specs.Refusals.{refusal_code};

/// Why a request is refused before it is answered; the connection is closed after it (RFC 9112,
/// sections 2.2, 3.2 and 6.3; the limits are the profile's).
#[derive(Clone, Copy, Debug, PartialEq, Eq)]
pub enum FramingRefusal {
    /// The head is not in the grammar, is longer than 16,384 bytes or has more than 64 fields.
    UnreadableHead,
    /// HTTP/1.1 without `Host`, or any version with more than one.
    HostCount,
    /// The target does not begin with `/`.
    TargetForm,
    /// `Transfer-Encoding` in HTTP/1.0, or beside `Content-Length`.
    TransferEncodingConflict,
    /// A `Transfer-Encoding` that is not served.
    UnknownTransferEncoding,
    /// More than one `Content-Length`, or one that is not 1 to 19 digits.
    InvalidContentLength,
    /// A body of more bytes than the settings allow.
    LengthTooLarge,
    /// A chunk line, the end of a chunk or the trailer cannot be read.
    UnreadableChunk,
    /// Chunks of more bytes together than the settings allow.
    ChunksTooLarge,
    /// No memory for the connection's buffer.
    NoBufferMemory,
}

impl FramingRefusal {
    /// The status code of the refusal.
    pub fn code(self) -> u16
        ensures { result ≡ refusal_code self }
    {
        match self {
            FramingRefusal::UnreadableHead => 400,
            FramingRefusal::HostCount => 400,
            FramingRefusal::TargetForm => 400,
            FramingRefusal::TransferEncodingConflict => 400,
            FramingRefusal::UnknownTransferEncoding => 501,
            FramingRefusal::InvalidContentLength => 400,
            FramingRefusal::LengthTooLarge => 413,
            FramingRefusal::UnreadableChunk => 400,
            FramingRefusal::ChunksTooLarge => 413,
            FramingRefusal::NoBufferMemory => 503,
        }
    }
}

/// How a connection ended.
#[derive(Clone, Copy, Debug, PartialEq, Eq)]
pub enum End {
    /// The input ended between two requests, or a request asked for the end.
    Closed,
    /// The input ended inside a request.
    Cut,
    /// A request was refused.
    Refused(FramingRefusal),
    /// A read failed, or 9,223,372,036,854,775,807 reads were made.
    ReadFailed,
    /// A write failed; so many bytes of the text in hand were written.
    WriteFailed { written: usize },
}

/// Why a read gave no bytes.
#[derive(Clone, Copy)]
pub enum Stop {
    /// The input has ended.
    AtEnd,
    /// It failed.
    Broken,
    /// It was not made.
    Refuse(FramingRefusal),
}
