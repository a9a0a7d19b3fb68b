//! What is to go out on a connection: heads of replies, and behind them the body of the last as the service
//! made it; and what is told of the request that was answered, as values.
//!
//! The crate above relies on `Outbox`: each call says which text is to go out then, and which report is kept.
#![tactic(auto)]

pub mod outbox;
pub mod report;

pub use outbox::{Outbox, Outgoing};
pub use report::{Asked, Endpoint, Report};
