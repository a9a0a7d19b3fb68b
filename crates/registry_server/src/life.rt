//! How long a connection has been silent.
ghost use Rattle.std.specs.Prelude.{◌≡◌};
ghost use Rattle.registry_server.specs.Lives.{alive_at, moved_by, sent_by};

/// So many bytes that moved on a connection are a sign of life.
pub const SIGN_OF_LIFE: usize = 65_536;

/// When there was a sign of life on a connection last, in milliseconds of the time that `Connections` is
/// told, and how many bytes moved on it since.
#[derive(Clone, Copy)]
pub struct Life {
    pub since: u64,
    pub moved: usize,
}

impl Life {
    /// There is one now.
    pub fn at(time: u64) -> Life
        ensures { result ≡ alive_at time }
    {
        Life {
            since: time,
            moved: 0,
        }
    }

    /// So many bytes moved.
    pub fn moved(self, count: usize, time: u64) -> Life
        ensures { result ≡ moved_by count time self }
    {
        let moved = self.moved.saturating_add(count);
        if moved >= SIGN_OF_LIFE {
            Life::at(time)
        } else {
            Life {
                since: self.since,
                moved,
            }
        }
    }

    /// So many bytes went out; `whole` says that no more are to go. The last byte of a reply is a sign of
    /// life.
    pub fn sent(self, count: usize, whole: bool, time: u64) -> Life
        ensures { result ≡ sent_by count whole time self }
    {
        if whole && count > 0 {
            Life::at(time)
        } else {
            self.moved(count, time)
        }
    }
}
