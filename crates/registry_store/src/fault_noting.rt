//! A storage failure is noted as it is told.
ghost use Rattle.std.specs.Prelude.{◌≡◌, ◌||◌};
ghost use Rattle.store_statements.specs.Held.{is_storage};

use oci_types::Fault;

/// Passes an answer on, and notes where it is that the storage failed.
pub(crate) fn note_fault<T>(spent: &mut bool, answer: Result<T, Fault>) -> Result<T, Fault>
    ensures same { result ≡ answer }
    ensures noted { spent.new ≡ (is_storage answer || spent.old) }
{
    if let Err(Fault::Storage) = &answer {
        *spent = true;
    }
    answer
}
