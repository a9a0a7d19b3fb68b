//! Laws of what is wrong.
ghost use Rattle.std.specs.Prelude.{◌≡◌, [], Some};
ghost use Rattle.oci_types.specs.Text.{Text};
ghost use Rattle.registry_model.specs.World.{World, Repo, repo_at};
ghost use Rattle.registry_model.specs.Soundness.{IsSound};
ghost use Rattle.registry_checking.specs.Wrongs.{wrongs_of, IsWhole};

/// In a sound world nothing is wrong.
pub fn a_sound_world_has_nothing_wrong()
    ensures { (w : World) → IsSound w → wrongs_of w ≡ [] }
{}

/// Where nothing is wrong, every repository is whole: each digest is that of its bytes, each manifest reads
/// as one, and each tag names one.
pub fn without_wrongs_all_is_whole()
    ensures { (w : World) (name : Text) (r : Repo) → wrongs_of w ≡ [] → repo_at w name ≡ Some r → IsWhole r }
{}
