//! The levels of one token, by the names of repositories.
ghost use Rattle.std.specs.Prelude.{◌≡◌, true};
ghost use Rattle.std.specs.FinMap.{insert, remove};
ghost use Rattle.registry_maps.specs.Maps.{levels_in, Makes};

use crate::putting::put;
use oci_types::RepoName;
use registry_model::Level;
use std::alloc::AllocError;
use std::collections::BTreeMap;

/// Sets the level on a repository.
pub fn set_level(
    levels: &mut BTreeMap<RepoName, Level>,
    name: &RepoName,
    level: Level,
) -> Result<(), AllocError>
    ensures { Makes result (insert (levels_in levels.old.entries) name.now level)
        (levels_in levels.old.entries) (levels_in levels.new.entries) }
{
    let key = name.clone()?;
    put(levels, key, level)
}

/// Takes the level on a repository away; the other levels are to stay.
pub fn take_level(levels: &mut BTreeMap<RepoName, Level>, name: &RepoName) -> bool
    ensures stays { result ≡ true }
    ensures taken { levels_in levels.new.entries ≡ remove (levels_in levels.old.entries) name.now }
{
    levels.remove(name);
    true
}
