//! What the way of reading in `specs/Manifest.antt` comes to, in the words of `specs/Reads.antt` and
//! `specs/FirstFault.antt`. The functions do nothing; each stands for its clause.

ghost use Rattle.std.specs.Prelude.{◌≡◌, ◌↔◌, List, ℕ};
ghost use Rattle.oci_types.specs.declared.manifest_fault.ManifestFault.{ManifestFault};
ghost use Rattle.oci_types.specs.Manifest.{ManifestShown, manifest_in};
ghost use Rattle.oci_types.specs.Reads.{ReadsAs};
ghost use Rattle.oci_types.specs.FirstFault.{Refuses};

/// What is read of bytes is what they say.
pub fn found()
    ensures { (bytes : List ℕ) (m : ManifestShown) → manifest_in bytes ≡ Ok m → ReadsAs bytes m }
{}

/// What bytes say is read: no rule refuses more.
pub fn only()
    ensures { (bytes : List ℕ) (m : ManifestShown) → ReadsAs bytes m → manifest_in bytes ≡ Ok m }
{}

/// A fault is named exactly where it is that of the first rule that the bytes break.
pub fn first_fault()
    ensures { (bytes : List ℕ) (fault : ManifestFault)
        → (manifest_in bytes ≡ Err fault) ↔ Refuses bytes fault }
{}
