//! Laws of copies.
ghost use Rattle.std.specs.Prelude.{◌≡◌, option_map};
ghost use Rattle.oci_types.specs.Text.{Text};
ghost use Rattle.registry_model.specs.World.{World, repo_at};
ghost use Rattle.registry_model.specs.Command.{without_sessions};
ghost use Rattle.registry_model.specs.Soundness.{IsSound};
ghost use Rattle.registry_copy.specs.Closed.{without_uploads, HasLevelsOnRepos};

/// A world without its open uploads has each repository, without its sessions, and no other; the levels of
/// each token are what they were.
pub fn without_uploads_all_else_stays()
    ensures repos { (w : World) (name : Text)
        → repo_at (without_uploads w) name ≡ option_map without_sessions (repo_at w name) }
    ensures levels { (w : World) → (without_uploads w).grants ≡ w.grants }
{}

/// A sound world has levels on its repositories alone, so that its copy has them all.
pub fn a_sound_world_is_copied_whole()
    ensures { (w : World) → IsSound w → HasLevelsOnRepos w }
{}
