ghost use Rattle.std.specs.Prelude.{◌≡◌, Some, string_bytes};
ghost use Rattle.registry_model.specs.Answer.{answer_of, busy_answer, failed_answer, refused, code_of, bare_answer, content_of, challenge_text};

use crate::Refusal;
use oci_types::Digest;
use std::rc::Rc;

/// A reply's status (RFC 9110, section 15; 429: RFC 6585).
#[derive(Clone, Copy)]
pub enum Status {
    OK,
    Created,
    Accepted,
    NoContent,
    BadRequest,
    Unauthorized,
    Forbidden,
    NotFound,
    MethodNotAllowed,
    PayloadTooLarge,
    RangeNotSatisfiable,
    TooManyRequests,
    InternalServerError,
    ServiceUnavailable,
}

impl Status {
    /// The code's number.
    pub fn code(self) -> u16
        ensures { result ≡ code_of self }
    {
        match self {
            Status::OK => 200,
            Status::Created => 201,
            Status::Accepted => 202,
            Status::NoContent => 204,
            Status::BadRequest => 400,
            Status::Unauthorized => 401,
            Status::Forbidden => 403,
            Status::NotFound => 404,
            Status::MethodNotAllowed => 405,
            Status::PayloadTooLarge => 413,
            Status::RangeNotSatisfiable => 416,
            Status::TooManyRequests => 429,
            Status::InternalServerError => 500,
            Status::ServiceUnavailable => 503,
        }
    }
}

/// A reply's body: a constant text, bytes of its own, bytes that it shares with others, or what HEAD leaves
/// of a body, its length.
pub enum Body {
    Constant(&'static str),
    Owned(Vec<u8>),
    Shared(Rc<Vec<u8>>),
    Unsent(u64),
}

// (written out, here and below, so that where one is dropped it is by a call)
impl Drop for Body {
    fn drop(self) {
        match self {
            Body::Constant(_) => {}
            Body::Owned(_) => {}
            Body::Shared(_) => {}
            Body::Unsent(_) => {}
        }
    }
}

/// What a reply that asks for a token says of where one is to be had (RFC 9110, section 11.6.1): a constant
/// text, or one that was made for the request.
pub enum Challenge {
    Constant(&'static str),
    Made(String),
}

impl Drop for Challenge {
    fn drop(self) {
        match self {
            Challenge::Constant(_) => {}
            Challenge::Made(_) => {}
        }
    }
}

/// A reply: its status, the fields that it carries, and its body.
pub struct Reply {
    pub status: Status,
    pub location: Option<String>,
    pub range: Option<String>,
    pub digest: Option<Digest>,
    pub subject: Option<Digest>,
    pub filters: Option<&'static str>,
    pub link: Option<String>,
    pub allow: Option<&'static str>,
    pub challenge: Option<Challenge>,
    pub content_type: Option<&'static str>,
    pub caching: Option<&'static str>,
    pub body: Body,
}

impl Drop for Reply {
    fn drop(self) {
        let Reply {
            status: _,
            location: _,
            range: _,
            digest: _,
            subject: _,
            filters: _,
            link: _,
            allow: _,
            challenge: _,
            content_type: _,
            caching: _,
            body: _,
        } = self;
    }
}

impl Reply {
    /// A reply of this status with no field and an empty body.
    pub fn bare(status: Status) -> Reply
        ensures { answer_of result ≡ bare_answer status }
    {
        Reply {
            status,
            location: None,
            range: None,
            digest: None,
            subject: None,
            filters: None,
            link: None,
            allow: None,
            challenge: None,
            content_type: None,
            caching: None,
            body: Body::Constant(""),
        }
    }

    /// The reply of a refusal that needs no further field: its JSON error body (OCI Distribution
    /// Specification 1.1, Error Codes), and the challenge where it is `TokenRequired` (RFC 6750,
    /// section 3).
    pub fn refusal(refusal: Refusal) -> Reply
        ensures { answer_of result ≡ refused refusal }
    {
        let challenge = match refusal {
            Refusal::TokenRequired => Some(Challenge::Constant("Bearer realm=\"registry\"")),
            _ => None,
        };
        let reply = Reply::bare(refusal.status());
        let mut reply = reply.with_content("application/json", Body::Constant(refusal.body()));
        reply.challenge = challenge;
        reply
    }

    /// The reply where memory is wanting; nothing has changed.
    pub fn busy() -> Reply
        ensures { answer_of result ≡ busy_answer }
    {
        Reply::bare(Status::ServiceUnavailable)
    }

    /// The reply of a service whose storage failed.
    pub fn failed() -> Reply
        ensures { answer_of result ≡ failed_answer }
    {
        Reply::bare(Status::InternalServerError)
    }
    /// The reply, and that what it has is at this place.
    pub fn with_location(self, location: String) -> Reply
        ensures { answer_of result ≡ record (answer_of self) { location = Some (string_bytes location) } }
    {
        let mut reply = self;
        reply.location = Some(location);
        reply
    }

    /// The reply, and the digest of what it has.
    pub fn with_digest(self, digest: Digest) -> Reply
        ensures { answer_of result ≡ record (answer_of self) { digest = Some digest } }
    {
        let mut reply = self;
        reply.digest = Some(digest);
        reply
    }

    /// The reply with another challenge.
    pub fn with_challenge(self, challenge: Challenge) -> Reply
        ensures { answer_of result ≡ record (answer_of self) { challenge = Some (challenge_text challenge) } }
    {
        let mut reply = self;
        reply.challenge = Some(challenge);
        reply
    }

    /// The reply, and how it may be kept (RFC 9111, section 5.2).
    pub fn with_caching(self, caching: &'static str) -> Reply
        ensures { answer_of result ≡ record (answer_of self) { caching = Some caching.now } }
    {
        let mut reply = self;
        reply.caching = Some(caching);
        reply
    }

    /// The reply with another body, and of what type it is.
    pub fn with_content(self, content_type: &'static str, body: Body) -> Reply
        ensures { answer_of result ≡ record (answer_of self) {
          content_type = Some content_type.now;
          body = content_of body;
        } }
    {
        let mut reply = self;
        reply.content_type = Some(content_type);
        reply.body = body;
        reply
    }
}
