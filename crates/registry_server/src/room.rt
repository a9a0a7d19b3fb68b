//! How many bytes of requests connections may be given.

ghost use Rattle.std.specs.Prelude.{◌≡◌, ◌≤◌, Some};
ghost use Rattle.registry_server.specs.Slots.{slot_of};

use crate::bounds::{pool, room_beside};
use crate::connection::Connection;
use crate::connections::Connections;

impl Connections {
    ghost use Rattle.registry_server.specs.Room.{room_in, room_of};
    ghost use Rattle.registry_server.specs.Showing.{connected};

    /// How many more bytes a connection may be given that holds what this one does.
    fn room_of(&self, connection: &Connection) -> usize
        ensures { result ≡ room_in (Some (slot_of connection.now).conversation) (connected self.now) }
    {
        let held = connection.conversation.coming();
        room_beside(self.sums.over, held, pool(&self.bounds))
    }

    /// How many bytes a connection may be given now; 0 where it is not open.
    ///
    /// Each may always hold `SHARE` bytes of requests, whatever others hold. Where what the others hold above
    /// their shares is no more than there is for all, it may hold `LARGEST` more: so of those that hold much
    /// one can always go on to the end of its request.
    pub fn room(&self, number: u64) -> usize
        ensures { result ≡ room_of number (connected self.now) }
    {
        match self.under(number) {
            Some(connection) => self.room_of(connection),
            None => 0,
        }
    }

    /// How many bytes of a connection are to be read now: none where its body in hand waits for room to be
    /// staged, else as many as `room` says.
    pub fn takes(&self, number: u64) -> usize
        ensures { result ≤ room_of number (connected self.now) }
    {
        match self.under(number) {
            Some(connection) if connection.conversation.waits_for_room() => 0,
            Some(connection) => self.room_of(connection),
            None => 0,
        }
    }
}
