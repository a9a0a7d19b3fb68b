//! What bytes spell is one thing.
ghost use Rattle.std.specs.Prelude.{◌≡◌, List};
ghost use Rattle.oci_types.specs.Text.{Text};
ghost use Rattle.registry_model.specs.declared.settings.Settings.{Settings};
ghost use Rattle.registry_http.specs.Spelling.{Item, Spells, AreOneEnd};
ghost use Rattle.registry_http.specs.declared.ending.End.{End};

/// With whatever settings, bytes spell one list of requests, and one end; but where they end in the target
/// of a head, which may be no text, an end that waits for the target's end is as good as one that refuses it.
pub fn spelling_is_unique()
    ensures items { (settings : Settings) (b : Text) (items others : List Item) (e f : End)
        → Spells settings b items e → Spells settings b others f → items ≡ others }
    ensures end { (settings : Settings) (b : Text) (items others : List Item) (e f : End)
        → Spells settings b items e → Spells settings b others f → AreOneEnd b e f }
{}
