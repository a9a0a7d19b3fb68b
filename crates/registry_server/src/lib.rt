//! The connections of a server over one service, each a `Receiver`.
//!
//! The crates above rely on `Connections`: each call says what it made of the connection that it names, and
//! that every other one is exactly as it was; `laws` say what any list of calls comes to. What serves one
//! connection is named here too (`registry_conversation`).
#![tactic(auto)]

pub mod bounds;
pub mod connection;
pub mod connections;
pub mod gone;
pub mod laws;
pub mod life;
pub mod receipt;
pub mod refusal;
pub mod room;
pub mod silence;
pub mod sums;
pub mod turn;
pub mod waiting;

pub use bounds::{Bounds, LARGEST, SHARE};
pub use connections::Connections;
pub use receipt::Receipt;
pub use refusal::Refusal;
pub use registry_conversation::{
    Conversation, Exchange, FieldRoom, Phase, ReadFault, Receiver, Step, Wants, serve_connection,
    serve_one,
};
pub use turn::Turn;
