//! Connections that are served together.
ghost use Rattle.std.specs.Prelude.{◌≡◌, ℕ, List, [], true, false, IfOk, OnOk};
ghost use Rattle.registry_loop.specs.Together.{ServesTogether, ServesWithin, ServesRounds, bounds_of};
ghost use Rattle.order_sockets.specs.Calling.{Called};

use registry_holding::Holder;
use registry_model::Settings;
use registry_service::Service;
use registry_sockets::Doors;
use std::alloc::Global;
use std::io;

/// Those whose connections are served together.
pub trait Gathering {
    /// About how many bytes of requests and of replies they may have in hand.
    ghost buffer: { Self → ℕ };

    /// Those who give orders beside them.
    ghost callers: { Self → List Called };

    /// Those may come who come to these doors. An error is that of the system, also where it refuses to watch
    /// what is to be watched.
    fn open(&mut self, alloc: Global, doors: Doors) -> io::Result<()>
        ensures buffer { buffer self.new ≡ buffer self.old }
        ensures none { OnOk result (callers self.new ≡ []) };

    /// Says a line before anybody comes.
    fn introduce(&mut self, line: &str)
        ensures buffer { buffer self.new ≡ buffer self.old }
        ensures callers { callers self.new ≡ callers self.old };

    /// Serves those who come with these settings, at most so many at once, until all have come and gone, as
    /// they have soon where somebody asks the server to stop; or the service is spent: then everybody goes,
    /// and the answer is `false`. An error is that nobody can come.
    fn serve_all<K: Holder>(
        &mut self,
        alloc: Global,
        service: &mut Service<K>,
        settings: Settings,
        at_once: usize,
    ) -> io::Result<bool>
        ensures honest { K.is_honest service.new → K.is_honest service.old }
        ensures serves { K.is_honest service.new
            → ServesTogether settings at_once
            (K.kept service.old) (K.kept service.new) }
        ensures within { K.is_honest service.new
            → ServesWithin settings at_once (buffer self.old)
            (K.kept service.old) (K.kept service.new) }
        ensures rounds { K.is_honest service.new → ServesRounds settings (bounds_of at_once (buffer self.old))
            (callers self.old) (K.kept service.old) (K.kept service.new) }
        ensures none { OnOk result (callers self.new ≡ []) }
        ensures buffer { buffer self.new ≡ buffer self.old }
        ensures spent { IfOk result (λ over. over ≡ false → (K.kept service.new).spent ≡ true) };
}
