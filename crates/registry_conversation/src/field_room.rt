//! Room to find header fields in.
ghost use Rattle.std.specs.Prelude.{◌≡◌, vec_len};

use httparse::spans::{EMPTY_HEADER_SPAN, HeaderSpan};
use std::alloc::{AllocError, Global};

/// Room to find the fields of a head or of a trailer in: 8,192 of them, which are 256 KiB. Nothing that a
/// call left there is used by a later one, so one room is enough for any number of conversations.
#[derive(Drop)]
pub struct FieldRoom {
    pub(crate) spans: Vec<HeaderSpan>,
    ghost room: { vec_len spans ≡ 8192 },
}

impl FieldRoom {
    /// It fails only for want of memory.
    pub fn new(alloc: Global) -> Result<FieldRoom, AllocError> {
        let spans = vec![in alloc; EMPTY_HEADER_SPAN; 8192]?;
        Ok(FieldRoom { spans })
    }
}
