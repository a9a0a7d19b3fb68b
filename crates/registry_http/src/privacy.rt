//! Isolation on a connection.

ghost use Rattle.std.specs.Prelude.{List, ◌++◌};
ghost use Rattle.oci_types.specs.Text.{Text};
ghost use Rattle.registry_model.specs.Keeping.{State};
ghost use Rattle.registry_model.specs.declared.settings.Settings.{Settings};
ghost use Rattle.registry_http.specs.Spelling.{Item};
ghost use Rattle.registry_http.specs.Serving.{Run, Traffic, Serves, served};
ghost use Rattle.registry_http.specs.declared.ending.End.{End};
ghost use Rattle.registry_http.specs.Privacy.{IsPrivateRun};

/// The requests that are answered on a connection (`serve_connection` says with which texts) are a
/// run: the texts are those of the definitions' answers, one after the other, up to the first
/// storage failure; and for each team for which every request is its own or aside, the texts of its
/// own requests, those left out for which memory was wanting, are the texts of the replies that it
/// would get alone, in a registry that holds only what it sees.
pub fn a_connection_is_private()
    ensures { (settings : Settings) (s : State) (items : List Item) (texts : List Text) (s' : State)
        → Run settings s items texts s' → IsPrivateRun settings s items texts s' }
{}

/// Whatever was served on a connection, and however it ended: the requests that were answered are a
/// run, from the state before it to the state after it.
pub fn a_connection_is_a_run()
    ensures { (e : End) (t : Traffic) → (h : Serves e t)
        → Run t.settings t.state (served e t h).0 (served e t h).1 t.state' }
{}

/// Connections one after the other are one run: that of the requests of the one, and then of the
/// other.
pub fn runs_join()
    ensures { (settings : Settings) (s : State) (items : List Item) (texts : List Text) (mid : State)
        (more : List Item) (others : List Text) (s' : State)
        → Run settings s items texts mid → Run settings mid more others s'
        → Run settings s (items ++ more) (texts ++ others) s' }
{}
