//! A value put into a map, or behind the others of a list.
ghost use Rattle.std.specs.Prelude.{◌≡◌, ◌++◌, ◌∷◌, [], OnOk, IsOkAnd};
ghost use Rattle.registry_maps.specs.Maps.{Puts};

use std::alloc::AllocError;
use std::cmp::Ord;
use std::collections::BTreeMap;

/// Puts a value at a key, in the place of one that is there. What that was is dropped here, for all maps, or
/// the key and the value where there is no memory.
pub fn put<K: Ord + Drop, V: Drop>(
    map: &mut BTreeMap<K, V>,
    key: K,
    value: V,
) -> Result<(), AllocError>
    ensures { Puts K.cmp result key value map.old map.new }
{
    map.insert(key, value)?;
    Ok(())
}

/// Puts a copy behind the others, if there was memory for it. It is dropped here, for all lists, where there
/// is none for the list.
pub fn push<T: Drop>(list: &mut Vec<T>, copy: Result<T, AllocError>) -> Result<(), AllocError>
    ensures { OnOk result (IsOkAnd copy (λ v. list.new.items ≡ list.old.items ++ (v ∷ []))) }
{
    list.push(copy?)?;
    Ok(())
}

/// The same of two copies, as a pair.
pub fn push_pair<A: Drop, B: Drop>(
    list: &mut Vec<(A, B)>,
    first: Result<A, AllocError>,
    second: Result<B, AllocError>,
) -> Result<(), AllocError>
    ensures { OnOk result (IsOkAnd first (λ a. IsOkAnd second (λ b.
        list.new.items ≡ list.old.items ++ ((a, b) ∷ [])))) }
{
    list.push((first?, second?))?;
    Ok(())
}
