//! The words of a command line, the administrator's orders, exit statuses and messages. It knows of no
//! service, and so is proved beside those that answer.
//!
//! The crate above relies on `read_words`, which gives the task that the words spell and refuses words
//! only as stated, and on `Failure`, with its status and text, behind which `say_at` says what is wrong with
//! a path or an address.
#![tactic(auto)]

pub mod beside;
pub mod cause;
pub mod failure;
pub mod given;
pub mod layout;
pub mod limits;
pub mod line;
pub mod listing;
pub mod options;
pub mod orders;
pub mod output;
pub mod place;
pub mod served;
mod settings;
pub mod tasks;
pub mod tokens;
pub mod unread;

pub use beside::Beside;
pub use cause::Cause;
pub use failure::Failure;
pub use layout::Layout;
pub use limits::Limits;
pub use listing::{Form, Held, Listing, Shown};
pub use orders::{Change, Order, TokenOrder, read_order};
pub use place::Place;
pub use served::Served;
pub use tasks::Task;
pub use tokens::{TokenSource, read_token};
