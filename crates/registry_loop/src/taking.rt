//! A crowd takes those who came, and says where one was turned away.
ghost use Rattle.std.specs.Prelude.{◌≡◌};
ghost use Rattle.order_sockets.specs.Calls.{all_called};
ghost use Rattle.registry_server.specs.Events.{Carries};
ghost use Rattle.registry_server.specs.Showing.{connected};

use crate::crowd::Crowd;
use registry_server::Connections;
use registry_sockets::{Came, EVENTS};
use std::alloc::Global;
use std::io;
use std::io::Write;
use std::time::Clock;

impl<'a, T: Clock, E: Write> Crowd<'a, T, E> {
    /// Takes the next one that came, and says where one was turned away. Says whether another may be taken.
    fn accept_next(&mut self, alloc: Global, connections: &mut Connections) -> io::Result<bool>
        ensures leads { Carries (connected connections.old) (connected connections.new) }
        ensures limits { self.new.limits ≡ self.old.limits }
        ensures callers { all_called self.new.callers.callers.items
            ≡ all_called self.old.callers.callers.items }
    {
        match self.sockets.accept_one(alloc, connections)? {
            Came::Somebody => Ok(true),
            Came::TurnedAway => {
                let now = self.sockets.now;
                self.log.say_turned_away(alloc, self.clock, now);
                Ok(true)
            }
            Came::Nobody => Ok(false),
        }
    }

    /// Takes those who came, as far as they may be taken.
    pub(crate) fn accept_all(
        &mut self,
        alloc: Global,
        connections: &mut Connections,
        at_once: usize,
    ) -> io::Result<()>
        ensures leads { Carries (connected connections.old) (connected connections.new) }
        ensures limits { self.new.limits ≡ self.old.limits }
        ensures callers { all_called self.new.callers.callers.items
            ≡ all_called self.old.callers.callers.items }
    {
        self.sockets.places = at_once;
        for _ in 0..2 * EVENTS {
            if !self.accept_next(alloc, connections)? {
                return Ok(());
            }
        }
        Ok(())
    }
}
