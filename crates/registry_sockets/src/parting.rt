//! Who is let go at the end of a round.
ghost use Rattle.std.specs.Prelude.{◌≡◌};
ghost use Rattle.registry_server.specs.Events.{Carries};
ghost use Rattle.registry_server.specs.Showing.{connected};
ghost use Rattle.registry_server.specs.Lives.{NoneSilent};

use crate::patience::{stalls, waits_for_room};
use crate::peers::{first_that_holds_stage, first_that_holds_up, list, peer_of};
use crate::sockets::Sockets;
use crate::wanted::Wanted;
use registry_server::Connections;
use std::alloc::Global;
use std::time::Duration;

/// After so many seconds all are looked at again, also those to which nothing happened.
const SWEEP: u64 = 1;

impl Sockets {
    /// Whether the connection of this number has ended.
    fn has_parted(&mut self, connections: &Connections, number: u64) -> bool {
        let now = self.now;
        match peer_of(&mut self.peers, number) {
            Some(peer) => peer.ended(connections, now),
            None => false,
        }
    }

    /// Whether something may be to be done for the connection of this number before anything happens to it.
    fn stays_awake(&mut self, number: u64) -> bool {
        match peer_of(&mut self.peers, number) {
            Some(peer) => {
                peer.listed = peer.is_awake();
                peer.listed
            }
            None => false,
        }
    }

    /// Lets the connection of this number go, if it has ended.
    fn part_if_ended(&mut self, connections: &mut Connections, number: u64)
        ensures { Carries (connected connections.old) (connected connections.new) }
    {
        if self.has_parted(connections, number) {
            self.dismiss(connections, number);
        }
    }

    /// Lets the one at a place of the list go, if it is to go, and takes it off the list where nothing is to
    /// be done for it. Says where the next is.
    fn part_with(&mut self, connections: &mut Connections, at: usize) -> usize
        ensures { Carries (connected connections.old) (connected connections.new) }
    {
        let Some(number) = self.awake.get(at).copied() else {
            return at;
        };
        self.part_if_ended(connections, number);
        if !self.stays_awake(number) && at < self.awake.len() {
            self.awake.swap_remove(at);
            return at;
        }
        at.saturating_add(1)
    }

    /// Lets those go that are to go, of those to which something happened.
    fn part_with_ended(&mut self, connections: &mut Connections)
        ensures { Carries (connected connections.old) (connected connections.new) }
    {
        let mut at = 0;
        for _ in 0..self.awake.len() {
            at = self.part_with(connections, at);
        }
    }

    /// Excuses those that wait for room, which are not silent by their own doing; says what room is wanted.
    fn excuse_waiting(&mut self, connections: &mut Connections) -> Wanted
        ensures { connected connections.new ≡ connected connections.old }
    {
        let mut wanted = Wanted::none();
        for number in self.awake.iter() {
            if let Some(peer) = peer_of(&mut self.peers, *number) {
                if waits_for_room(peer, connections) {
                    wanted.note(connections.waits_for_stage(*number));
                    connections.excuse(*number);
                }
            }
        }
        wanted
    }

    /// Who goes, where room is wanted: one that holds it up.
    fn first_to_make_room(&self, connections: &Connections, wanted: Wanted) -> Option<u64> {
        let holds_up = if wanted.for_requests {
            first_that_holds_up(&self.peers, connections)
        } else {
            None
        };
        match holds_up {
            Some(number) => Some(number),
            None if wanted.for_stages => first_that_holds_stage(&self.peers, connections),
            None => None,
        }
    }

    /// Where any waits for room, one goes that holds it up.
    fn make_room(&mut self, connections: &mut Connections)
        ensures { Carries (connected connections.old) (connected connections.new) }
    {
        let wanted = self.excuse_waiting(connections);
        if let Some(number) = self.first_to_make_room(connections, wanted) {
            self.dismiss(connections, number);
        }
    }

    /// The number of the one at a place, if it is to go though it has not ended: the server stops, or it
    /// takes nothing of its reply where replies fill their room.
    fn number_to_go(&self, at: usize, pressed: bool) -> Option<u64> {
        let peer = self.peers.get(at)?;
        let goes = self.goes_by_stop(peer) || (pressed && stalls(peer, self.now));
        goes.then_some(peer.number)
    }

    /// Looks at the one at a place, which is not to go: it gives back its room, if it rests, and is put on
    /// the list if anything is to be done for it. Where there is no room for replies its request may be whole
    /// and wait for a turn, so it is not silent by its own doing.
    fn look_at(&mut self, alloc: Global, connections: &mut Connections, at: usize, pressed: bool)
        ensures { connected connections.new ≡ connected connections.old }
    {
        if let Some(peer) = self.peers.get_mut(at) {
            if pressed && peer.coming > 0 {
                connections.excuse(peer.number);
            }
            peer.rest(alloc, connections);
            if peer.is_awake() {
                let _ = list(&mut self.awake, peer);
            }
        }
    }

    /// Lets the one at a place go, if it is to go, or looks at it. Says where the next is.
    fn sweep_at(
        &mut self,
        alloc: Global,
        connections: &mut Connections,
        at: usize,
        pressed: bool,
    ) -> usize
        ensures { Carries (connected connections.old) (connected connections.new) }
    {
        if let Some(number) = self.number_to_go(at, pressed) {
            self.dismiss(connections, number);
            return at;
        }
        self.look_at(alloc, connections, at, pressed);
        at.saturating_add(1)
    }

    /// Looks at all, once a second; and at each round of a server that stops.
    fn sweep(&mut self, alloc: Global, connections: &mut Connections)
        ensures { Carries (connected connections.old) (connected connections.new) }
    {
        let passed = self.now.saturating_sub(self.swept);
        if passed < Duration::from_secs(SWEEP) && self.stops.is_none() {
            return;
        }
        self.swept = self.now;
        let pressed = !connections.has_room_for_reply();
        let mut at = 0;
        for _ in 0..self.peers.len() {
            at = self.sweep_at(alloc, connections, at, pressed);
        }
    }

    /// Lets those go that have been silent for so many milliseconds.
    fn part_with_silent(&mut self, connections: &mut Connections, limit: u64)
        ensures leads { Carries (connected connections.old) (connected connections.new) }
        ensures none { NoneSilent limit connections.new }
    {
        while let Some(number) = connections.silent(limit) {
            let _ = connections.close(number);
            self.let_go(number);
        }
    }

    /// Lets those go that hold up others, have ended, or rest while the server stops.
    fn part_with_others(&mut self, alloc: Global, connections: &mut Connections)
        ensures { Carries (connected connections.old) (connected connections.new) }
    {
        self.make_room(connections);
        self.part_with_ended(connections);
        self.sweep(alloc, connections);
    }

    /// The end of a round: begins to stop if that was asked, writes, and lets go. Behind it none is open that
    /// has been silent for so many milliseconds.
    pub fn end_round(
        &mut self,
        alloc: Global,
        connections: &mut Connections,
        limit: u64,
        asked: bool,
    )
        ensures leads { Carries (connected connections.old) (connected connections.new) }
        ensures none { NoneSilent limit connections.new }
    {
        self.stop_if(asked);
        self.tell_all(connections);
        self.part_with_others(alloc, connections);
        self.part_with_silent(connections, limit);
    }
}
