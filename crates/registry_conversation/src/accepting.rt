//! The next connection of a listener, served to its end.
ghost use Rattle.registry_model.specs.Keeping.{state_of};
ghost use Rattle.registry_conversation.specs.Accepting.{ServesNext};

use crate::serve_connection;
use registry_http::End;
use registry_model::{Keeper, Settings};
use registry_service::Service;
use std::alloc::Global;
use std::io;
use std::net::TcpListener;

/// Takes one connection, and serves it with these settings to its end. An error is a failed accept, and then
/// nothing is done. What is written goes out at once (`TCP_NODELAY`); a socket that refuses that is served
/// too.
pub fn serve_one<K: Keeper>(
    alloc: Global,
    listener: &TcpListener,
    service: &mut Service<K>,
    settings: Settings,
) -> io::Result<End>
    ensures honest { K.is_honest service.new → K.is_honest service.old }
    ensures serves { K.is_honest service.new
        → ServesNext settings result (state_of (K.kept service.old)) (state_of (K.kept service.new)) }
{
    let stream = match listener.accept() {
        Ok((stream, _)) => stream,
        Err(error) => return Err(error),
    };
    let _ = stream.set_nodelay(true);
    let mut reader = &stream;
    let mut writer = &stream;
    Ok(serve_connection(alloc, service, settings, &mut reader, &mut writer))
}
