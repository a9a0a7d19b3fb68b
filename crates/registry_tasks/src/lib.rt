//! Each task of a command line but to serve an address, over any opener of registries: orders carried out or
//! sent, a check, one connection. And what serving an address wants: where it listens, what a registry in
//! memory begins with, and a registry that is opened again where its storage fails.
//!
//! The crate above relies on `run_order_at`, `run_token_order`, `run_check`, `run_stored`, `serve_memory` and
//! `send_stop`: what each of these tasks comes to, with its exit status. And on `set_up`: the world that a
//! setup makes of another.
#![tactic(auto)]

mod checking;
pub mod listening;
pub mod messenger;
pub mod opened;
pub mod order_socket;
pub mod sending;
pub mod setting_up;
pub mod sockets;
pub mod stdio;
pub mod telling;
pub mod tokens;

pub use checking::run_check;
pub use messenger::{Messenger, Servers};
pub use opened::{run_migration, run_order_at, run_stored};
pub use order_socket::listen_for_orders;
pub use sending::{send_order, send_stop};
pub use setting_up::set_up;
pub use stdio::{serve_memory, serve_stdio};
pub use telling::tell;
pub use tokens::run_token_order;
