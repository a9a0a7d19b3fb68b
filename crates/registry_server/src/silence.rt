//! How long connections have been silent, by the time that is handed in.
ghost use Rattle.std.specs.Prelude.{◌≡◌, option_map, IfSome, IfNone};

use crate::connection::{find_silent, oldest};
use crate::connections::Connections;

/// After so many milliseconds the earliest last sign of life is looked up again.
const LOOKS_EACH: u64 = 1_000;

impl Connections {
    ghost use Rattle.registry_server.specs.Showing.{connected};
    ghost use Rattle.registry_server.specs.Lives.{excused_at, moved_by, life_of, silence_of};
    ghost use Rattle.registry_server.specs.Lives.{LivesBut, LivesAt, NoneSilent, IsSilent};

    /// It is this time, in milliseconds from whenever.
    pub fn tick(&mut self, time: u64)
        ensures same { connected self.new ≡ connected self.old }
        ensures lives { LivesAt time self.old self.new }
    {
        self.time = time;
        self.oldest = self.oldest.min(time);
        if time.saturating_sub(self.looked) < LOOKS_EACH {
            return;
        }
        self.looked = time;
        self.oldest = oldest(&self.connections, time);
    }

    /// So many bytes moved on a connection beside those that are told of here: they were read and let fall.
    pub fn note_moved(&mut self, number: u64, count: usize)
        ensures same { connected self.new ≡ connected self.old }
        ensures lives { LivesBut number (option_map (moved_by count self.old.time) (life_of number self.old))
            self.old self.new }
    {
        let time = self.time;
        if let Some(at) = self.place_of(number) {
            self.connections[at].note_moved(count, time);
        }
    }

    /// The server itself made a connection wait: its silence begins anew now.
    pub fn excuse(&mut self, number: u64)
        ensures same { connected self.new ≡ connected self.old }
        ensures lives { LivesBut number (option_map (excused_at self.old.time) (life_of number self.old))
            self.old self.new }
    {
        let time = self.time;
        if let Some(at) = self.place_of(number) {
            self.connections[at].excuse(time);
        }
    }

    /// For how many milliseconds there was no sign of life on a connection; 0 where it is not open. These are
    /// signs of life: that it came, 65,536 bytes that came or went, and the last byte of a reply.
    pub fn silence(&self, number: u64) -> u64
        ensures { result ≡ silence_of number self.now }
    {
        match self.under(number) {
            Some(connection) => self.time.saturating_sub(connection.life.since),
            None => 0,
        }
    }

    /// One that has been silent for so many milliseconds; none where none has.
    pub fn silent(&self, limit: u64) -> Option<u64>
        ensures silent { IfSome result (λ number. IsSilent limit number self.now) }
        ensures none { IfNone result (NoneSilent limit self.now) }
    {
        if self.time - self.oldest < limit {
            return None;
        }
        let at = find_silent(&self.connections, self.time, limit)?;
        Some(self.connections[at].number)
    }
}
