//! What is staged of connections that are gone, and who waits for room to stage a body.

ghost use Rattle.std.specs.Prelude.{◌≡◌, ◌⊎◌, ℕ, [], All, None};
ghost use Rattle.registry_server.specs.declared.receipt.Receipt.TheVariants.{Taken};

use crate::connections::Connections;
use registry_holding::Holder;
use registry_service::Service;

impl Connections {
    ghost use Rattle.registry_server.specs.Events.{Carries, IsUnstaged, Leads};
    ghost use Rattle.registry_server.specs.Room.{IsReceived};
    ghost use Rattle.registry_server.specs.Lives.{LivesOn};
    ghost use Rattle.registry_server.specs.Showing.{connected};

    /// What is staged under this number is let go, where the connection is gone.
    fn unstage_if_gone<K: Holder>(&mut self, service: &mut Service<K>, number: u64)
        ensures honest { K.is_honest service.new → K.is_honest service.old }
        ensures same { connected self.new ≡ connected self.old }
        ensures lives { LivesOn self.old self.new }
        ensures leads { K.is_honest service.new → Leads (connected self.old) (K.kept service.old)
            (connected self.new) (K.kept service.new) }
        ensures gone { self.new.gone ≡ self.old.gone }
        ensures unstaged { K.is_honest service.new
            → IsUnstaged (connected self.old).slots (K.kept service.new) number }
        ensures others { K.is_honest service.new → (n : ℕ) → (K.kept service.old).held.stages n ≡ None
            → (K.kept service.new).held.stages n ≡ None }
    {
        self.waiting.note_room();
        match self.place_of(number) {
            None => service.unstage(number),
            Some(_) => {}
        }
    }

    /// What is staged of connections that are gone is let go.
    pub fn let_go<K: Holder>(&mut self, service: &mut Service<K>)
        ensures honest { K.is_honest service.new → K.is_honest service.old }
        ensures same { connected self.new ≡ connected self.old }
        ensures lives { LivesOn self.old self.new }
        ensures leads { K.is_honest service.new → Leads (connected self.old) (K.kept service.old)
            (connected self.new) (K.kept service.new) }
        ensures unstaged { K.is_honest service.new
            → All (IsUnstaged (connected self.old).slots (K.kept service.new)) self.old.gone.items }
        ensures none { self.new.gone.items ≡ [] }
    {
        while let Some(number) = self.gone.pop() {
            self.unstage_if_gone(service, number);
        }
    }

    /// Whether the body in hand of a connection waits for room to be staged. No contract speaks of it.
    pub fn waits_for_stage(&self, number: u64) -> bool {
        match self.under(number) {
            Some(connection) => connection.conversation.waits_for_room(),
            None => false,
        }
    }

    /// Whether the body in hand of a connection is staged. No contract speaks of it.
    pub fn has_stage(&self, number: u64) -> bool {
        match self.under(number) {
            Some(connection) => connection.conversation.has_stage(),
            None => false,
        }
    }

    /// Where room may have been made for a body that waits to be staged, the first of those that wait is to
    /// be looked at again, as if something had come on it.
    pub fn stir_waiting(&mut self)
        ensures stirs { (connected self.new ≡ connected self.old)
            ⊎ ((number : ℕ) × IsReceived Taken number [] (connected self.old) (connected self.new)) }
        ensures leads { Carries (connected self.old) (connected self.new) }
    {
        if let Some(number) = self.waiting.take_due() {
            let _ = self.receive(number, b"");
        }
    }
}
