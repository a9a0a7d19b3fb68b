//! The bytes of HTTP/1.1 connections: heads, framing, targets, fields and the texts of replies. It knows
//! of no service, and so is proved beside those that answer.
//!
//! The crates above rely on `Buffer`, which holds the bytes of a connection, on `parse_head`, `find_line`
//! and `find_trailer`, which say what these begin with, on `write_head`, and on `spelling_is_unique`:
//! bytes spell one list of requests.
#![tactic(auto)]

pub mod buffer;
pub mod chunk;
pub mod ending;
pub mod expecting;
pub mod fields;
pub mod fixed_text;
pub mod framing;
pub mod head;
pub mod limits;
pub mod outgoing;
pub mod persistence;
pub mod privacy;
pub mod query;
pub mod reply_text;
pub mod spelling;
pub mod target;
pub mod token;
pub mod trailer;

pub use ending::{End, FramingRefusal};
pub use outgoing::WriteFault;
pub use reply_text::write_head;
pub use spelling::spelling_is_unique;
