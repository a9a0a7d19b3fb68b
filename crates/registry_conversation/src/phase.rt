use crate::part::Part;
use registry_http::End;

/// What has come of the request in hand.
#[derive(Clone, Copy)]
pub enum Phase {
    /// Its head is not whole.
    Head,
    /// Its head was taken, and this part of its body is not whole.
    Body(Part),
    /// There is no further request.
    Ended(End),
}

/// What a turn of a conversation came to.
#[derive(Clone, Copy, Debug, PartialEq, Eq)]
pub enum Step {
    /// One request was answered.
    Answered,
    /// The head of a request was taken, and an interim response put out for which its client waits before it
    /// sends the body (RFC 9110, section 15.2): the body takes another turn.
    Interim,
    /// No request is whole: more bytes are missing.
    Waits,
    /// There is no further request.
    Ended(End),
}

/// What a conversation waits for.
#[derive(Clone, Copy, Debug, PartialEq, Eq)]
pub enum Wants {
    /// Bytes that come, or the end of the input.
    Bytes,
    /// Room for bytes that are to go out.
    Room,
    /// Nothing: it has ended, and all its bytes went out.
    Nothing,
}
