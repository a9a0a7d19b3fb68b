ghost use Rattle.std.specs.Prelude.{◌≡◌};
ghost use Rattle.registry_conversation.specs.Receiving.{received};
ghost use Rattle.registry_server.specs.Held.{with_one, without_one};

use crate::Receiver;
use crate::bounds::SHARE;

/// What connections hold together. It is kept as they change, so that nobody walks over all of them for it.
#[derive(Clone, Copy)]
pub struct Sums {
    /// How many bytes of requests they hold above their shares.
    pub over: usize,
    /// How many bytes are to go out on them.
    pub going: u128,
}

impl Sums {
    /// The conversation of a connection is one of theirs.
    pub fn add(&mut self, conversation: &Receiver)
        ensures { self.new ≡ with_one (received conversation.now) self.old }
    {
        let over = conversation.coming().saturating_sub(SHARE);
        let going = conversation.outgoing().len();
        self.over = self.over.saturating_add(over);
        self.going = self.going.saturating_add(going as u128);
    }

    /// It is none of theirs.
    pub fn take(&mut self, conversation: &Receiver)
        ensures { self.new ≡ without_one (received conversation.now) self.old }
    {
        let over = conversation.coming().saturating_sub(SHARE);
        let going = conversation.outgoing().len();
        self.over = self.over.saturating_sub(over);
        self.going = self.going.saturating_sub(going as u128);
    }
}
