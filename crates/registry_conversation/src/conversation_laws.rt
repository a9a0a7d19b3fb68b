//! What any list of a conversation's calls comes to.

ghost use Rattle.std.specs.Prelude.{List, ◌++◌};
ghost use Rattle.registry_model.specs.declared.settings.Settings.{Settings};
ghost use Rattle.registry_model.specs.Keeping.{State};
ghost use Rattle.registry_conversation.specs.Shown.{Shown, begun};
ghost use Rattle.registry_conversation.specs.ConversationEvents.{Event, Passes, Accounts, heard, went};

/// Whatever calls a conversation gets, in whatever order, while nobody else touches the service: the
/// requests that were answered are those that all bytes which came begin with, in their order, each answered
/// in the state that those before it left; what went out and is still to go out are, joined, their texts,
/// and what was said of the next request. Once it has ended, its bytes and the service's states are those of
/// a connection that was served to this end.
pub fn a_conversation_is_served()
    ensures { (settings : Settings) (events : List Event) (s : State) (c : Shown) (s' : State)
        → Passes settings events begun s c s'
        → Accounts settings (heard events) (went events ++ c.going) s s' c }
{}
