use crate::Step;
use registry_outbox::Report;

/// A turn that was taken: by which connection, what it came to, and what was answered or refused.
#[derive(Drop)]
pub struct Turn {
    pub number: u64,
    pub step: Step,
    /// Of the request that was answered or refused in this turn; or of one that was refused since the turn
    /// before, because memory was wanting for the bytes that came.
    pub report: Option<Report>,
}
