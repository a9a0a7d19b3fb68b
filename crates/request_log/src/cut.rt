//! Replies that are cut off.

/// A reply to a connection that is let go before all of it went out: so many bytes of it did not.
#[derive(Clone, Copy)]
pub struct Cut {
    pub number: u64,
    pub left: usize,
}
