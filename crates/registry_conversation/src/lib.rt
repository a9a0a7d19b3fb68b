//! One connection over HTTP/1.1 over a service: by parts, and whole, also of a socket.
//!
//! The crates above rely on `Conversation`: each call says what it made of the bytes that came and are not
//! answered yet, and `conversation_laws` say what any list of calls comes to. They rely on
//! `serve_connection`: the bytes that a reader gives spell one list of requests, and what is written are the
//! texts of the replies that the service's definitions give; `serve_one` takes the next connection of a
//! listener for it.
#![tactic(auto)]

pub mod accepting;
pub mod answering;
pub mod body_place;
pub mod body_plan;
pub mod conversation;
pub mod conversation_laws;
pub mod exchange;
pub mod field_room;
pub mod heading;
pub mod part;
pub mod phase;
pub mod read_fault;
pub mod receiver;
pub mod receiving;
pub mod replying;
pub mod stepping;
pub mod whole_connection;

pub use accepting::serve_one;
pub use body_place::BodyPlace;
pub use conversation::Conversation;
pub use exchange::Exchange;
pub use field_room::FieldRoom;
pub use phase::{Phase, Step, Wants};
pub use read_fault::ReadFault;
pub use receiver::Receiver;
pub use whole_connection::serve_connection;
