//! For how long it is borne that a connection holds what another waits for.

use crate::peer::Peer;
use registry_server::{Connections, SHARE};
use std::time::Duration;

/// For how many milliseconds a connection may be silent that has not said a request whole, where another
/// waits for its place or its room; and one whose last reply was to a known token.
const PATIENCE: u64 = 5_000;

const PATIENCE_WITH_KNOWN: u64 = 15_000;

/// For how many milliseconds a connection may rest where another waits for its place, if its next request may
/// be one that its client does not send again on another connection.
const PAUSE: u64 = 1_000;

/// For how many seconds a socket may take none of a reply, where replies fill their room.
const STALL: u64 = 15;

/// For how many milliseconds one may be silent amid a request.
fn patience_with(peer: &Peer) -> u64 {
    if peer.standing.known {
        PATIENCE_WITH_KNOWN
    } else {
        PATIENCE
    }
}

/// For how many milliseconds one may be silent where another waits for its place; with `pressing`, for a long
/// time already. Between two requests that is not long, but to one that was given no reply yet.
fn patience_at_door(peer: &Peer, pressing: bool) -> u64 {
    if !peer.rests() {
        patience_with(peer)
    } else if !peer.standing.answered {
        PATIENCE
    } else if peer.standing.resumes || pressing {
        0
    } else {
        PAUSE
    }
}

/// Whether its place is given to another who waits for one. Nothing is there to be read of it, and nothing is
/// to go out. Amid a request the time counts from when the request began, too: who rested before is not
/// hurried.
pub fn gives_way(peer: &Peer, connections: &Connections, pressing: bool, now: Duration) -> bool {
    let patience = patience_at_door(peer, pressing);
    let begun = now.saturating_sub(peer.began) >= Duration::from_millis(patience);
    let idle = !peer.readable && peer.going == 0;
    idle && (peer.rests() || begun) && connections.silence(peer.number) >= patience
}

/// Whether it is the server that makes it wait: something is there to be read, and there is no room for it.
pub fn waits_for_room(peer: &Peer, connections: &Connections) -> bool {
    peer.speaks() && connections.takes(peer.number) == 0
}

/// Whether it goes where another waits for room: it holds more than its share, and says nothing.
pub fn holds_up(peer: &Peer, connections: &Connections) -> bool {
    let holds = peer.coming > SHARE && !peer.readable;
    holds && connections.silence(peer.number) >= patience_with(peer)
}

/// The same, where another waits for room to stage a body: its own is staged, and it says nothing.
pub fn holds_stage(peer: &Peer, connections: &Connections) -> bool {
    let holds = connections.has_stage(peer.number) && !peer.readable;
    holds && connections.silence(peer.number) >= patience_with(peer)
}

/// Whether its reply is cut off where replies fill their room.
pub fn stalls(peer: &Peer, now: Duration) -> bool {
    match peer.stuck {
        Some(since) => peer.going > 0 && now.saturating_sub(since) >= Duration::from_secs(STALL),
        None => false,
    }
}
