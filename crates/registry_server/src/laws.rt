//! What any list of calls comes to, over all connections.

ghost use Rattle.std.specs.Prelude.{◌≡◌, ◌≢◌, ◌+◌, ℕ, List};
ghost use Rattle.registry_model.specs.Keeping.{Kept, state_of};
ghost use Rattle.registry_model.specs.declared.settings.Settings.{Settings};
ghost use Rattle.registry_server.specs.declared.bounds.Bounds.{Bounds};
ghost use Rattle.registry_server.specs.Open.{Open, none};
ghost use Rattle.registry_server.specs.Room.{HoldsWithin, largest, share};
ghost use Rattle.registry_model.specs.Limits.{largest_manifest};
ghost use Rattle.registry_http.specs.Limits.{longest_head};
ghost use Rattle.registry_server.specs.Events.{Event, Passes, OneLedger};
ghost use Rattle.registry_server.specs.Turns.{IsStirred, HasTurn, TurnsTwice};

/// Whatever calls the connections get, in whatever order, from none on, and whatever steps others have the
/// service take between them: there is one list of all that the service did, in the order in which it took
/// effect. Its states are the run of that list. Of each connection the requests in it are those that all
/// bytes which came on it begin with, in their order; and all bytes that went out on it and are still to go
/// out are the texts of the replies to them, and what was said of the next request or the end's text. So the
/// laws of a run hold of all connections together: a team is told, on all its connections, what it would be
/// told alone.
pub fn connections_are_served()
    ensures { (events : List Event) (settings : Settings) (bounds : Bounds) (k : Kept) (u : Open)
        (k' : Kept) → Passes events (none settings bounds) k u k'
        → OneLedger events (state_of k) (state_of k') u }
{}

/// Whatever calls the connections get, they hold no more bytes of requests together than they may: what was
/// given, or where it is more, a share for each that may be open and one largest request. None holds more
/// than its share and one largest request. And if any is open, one of them may hold so much, so that its
/// request can get whole, where its body stays with it. Since this is so after any calls, it is so in every
/// state on the way.
pub fn requests_keep_within_bounds()
    ensures { (events : List Event) (settings : Settings) (bounds : Bounds) (k : Kept) (u : Open)
        (k' : Kept)
        → Passes events (none settings bounds) k u k' → (u.bounds ≡ bounds) × HoldsWithin u }
{}

/// Between two turns of a connection each other one that was to be looked at before the first takes one, or
/// it is gone: none is served twice while another waits.
pub fn none_takes_two_turns_before_another()
    ensures { (events : List Event) (settings : Settings) (bounds : Bounds) (k : Kept) (u : Open) (t : Kept)
        → Passes events (none settings bounds) k u t
        → (n m : ℕ) (between : List Event) (u' : Open) (t' : Kept) → m ≢ n → IsStirred m u.slots
        → TurnsTwice n between u t u' t' → HasTurn m between }
{}

/// What a connection keeps of a request at most: a head, a manifest, and as many bytes as are read at once.
pub fn a_head_and_a_manifest_are_kept()
    ensures { largest ≡ longest_head + largest_manifest + share }
{}
