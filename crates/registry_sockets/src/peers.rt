//! Many sockets in the order of their numbers, found by them.

use crate::patience::{gives_way, holds_stage, holds_up};
use crate::peer::Peer;
use mio::event::Event;
use registry_server::Connections;
use std::alloc::AllocError;
use std::time::Duration;

/// Where the one of this number stands.
fn place_of(peers: &[Peer], number: u64) -> Option<usize> {
    peers.binary_search_by_key(&number, |peer| peer.number).ok()
}

/// The one of this number.
pub fn peer_of(peers: &mut [Peer], number: u64) -> Option<&mut Peer> {
    let at = place_of(peers, number)?;
    peers.get_mut(at)
}

/// Takes out the one of this number.
pub fn take(peers: &mut Vec<Peer>, number: u64) -> Option<Peer> {
    let at = place_of(peers, number)?;
    if at < peers.len() {
        Some(peers.remove(at))
    } else {
        None
    }
}

/// Puts one that something is to be done for on the list, if it does not stand there.
pub fn list(awake: &mut Vec<u64>, peer: &mut Peer) -> Result<(), AllocError> {
    if !peer.listed {
        match awake.push(peer.number) {
            Ok(()) => peer.listed = true,
            Err(_) => return Err(AllocError),
        }
    }
    Ok(())
}

/// Whether any of these may be read, so that its connection takes what comes, or written to.
pub fn is_any_ready(peers: &mut [Peer], awake: &[u64], connections: &Connections) -> bool {
    for number in awake.iter() {
        if let Some(peer) = peer_of(peers, *number) {
            if peer.listens() || peer.drains() || peer.may_speak(connections) {
                return true;
            }
        }
    }
    false
}

/// The one whose place is given to another who waits, of several the one that was open longest.
pub fn first_to_give_way(
    peers: &[Peer],
    connections: &Connections,
    pressing: bool,
    now: Duration,
) -> Option<u64> {
    for peer in peers.iter() {
        if gives_way(peer, connections, pressing, now) {
            return Some(peer.number);
        }
    }
    None
}

/// The one that goes where another waits for room, of several the one that holds most.
pub fn first_that_holds_up(peers: &[Peer], connections: &Connections) -> Option<u64> {
    let mut found = None;
    let mut most = 0;
    for peer in peers.iter() {
        if peer.coming > most && holds_up(peer, connections) {
            found = Some(peer.number);
            most = peer.coming;
        }
    }
    found
}

/// The one that goes where another waits for room to stage a body, of several the one that was open longest.
pub fn first_that_holds_stage(peers: &[Peer], connections: &Connections) -> Option<u64> {
    for peer in peers.iter() {
        if holds_stage(peer, connections) {
            return Some(peer.number);
        }
    }
    None
}
