//! Lists of what is found, one after the other.
ghost use Rattle.std.specs.Prelude.{◌≡◌, ◌∷◌, ◌++◌, [], false, OnOk, IsOkAnd};
ghost use Rattle.store_statements.specs.Held.{is_storage};

use oci_types::Fault;

fn push<V: Drop>(values: &mut Vec<V>, value: V) -> Result<(), Fault>
    ensures { OnOk result (values.new.items ≡ values.old.items ++ value ∷ []) }
{
    match values.push(value) {
        Ok(()) => Ok(()),
        Err(_) => Err(Fault::Memory),
    }
}

/// Puts the value that was found behind the others.
pub(crate) fn push_found<V: Drop>(values: &mut Vec<V>, found: Result<V, Fault>) -> Result<(), Fault>
    ensures pushed { OnOk result
        (IsOkAnd found (λ value. values.new.items ≡ values.old.items ++ value ∷ [])) }
    ensures storage { is_storage result ≡ false → is_storage found ≡ false }
{
    match found {
        Ok(value) => push(values, value),
        Err(fault) => Err(fault),
    }
}
