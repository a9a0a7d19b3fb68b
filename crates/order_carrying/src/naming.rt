//! The manifests that name digests, read of a service.
ghost use Rattle.std.specs.Prelude.{◌≡◌, [], bytes_eq, OnOk, if◌then◌else◌};
ghost use Rattle.oci_types.specs.Text.{Text};
ghost use Rattle.registry_model.specs.Keeping.{ReadsBy, Spends};
ghost use Rattle.registry_model.specs.Pruning.{is_among};
ghost use Rattle.order_carrying.specs.Reading.{namings_at, namers_among};
ghost use Rattle.order_carrying.specs.Naming.{namers_in, with_namer, IsPut};

use oci_types::{Digest, Fault, RepoName};
use registry_model::Keeper;
use registry_service::Service;
use std::alloc::{AllocError, Global};
use std::collections::BTreeMap;

/// The manifests that name each digest.
pub struct Namers {
    manifests: BTreeMap<Digest, Vec<Digest>>,
}

// (written out, so that where one is dropped it is by a call)
impl Drop for Namers {
    fn drop(self) {
        let Namers { manifests: _ } = self;
    }
}

/// Puts a manifest behind others, unless it is the last of them.
fn put_behind(manifests: &mut Vec<Digest>, manifest: &Digest) -> Result<(), AllocError>
    ensures { OnOk result (manifests.new.items ≡ with_namer manifests.old.items manifest.now) }
{
    if manifests.last() != Some(manifest) {
        manifests.push(manifest.clone()?)?;
    }
    Ok(())
}

impl Namers {
    /// No digest is named.
    fn new(alloc: Global) -> Namers
        ensures { (digest : Text) → namers_in result digest ≡ [] }
    {
        Namers {
            manifests: BTreeMap::new(alloc),
        }
    }

    /// Puts a manifest behind those that name the digest, unless it is the last of them.
    fn put(&mut self, alloc: Global, digest: Digest, manifest: &Digest) -> Result<(), AllocError>
        ensures { OnOk result (IsPut manifest.now (bytes_eq digest) self.old self.new) }
    {
        let manifests = self.manifests.entry(digest)?.or_insert(Vec::new(alloc));
        put_behind(manifests, manifest)
    }

    /// Puts a manifest behind those that name what it names. It is put once where it names a digest twice,
    /// since no other one comes between.
    fn add(
        &mut self,
        alloc: Global,
        manifest: &Digest,
        names: Vec<Digest>,
    ) -> Result<(), AllocError>
        ensures { OnOk result (IsPut manifest.now (is_among names.items) self.old self.new) }
    {
        for digest in names {
            self.put(alloc, digest, manifest)?;
        }
        Ok(())
    }

    /// The manifests of a repository by what they name, in byte order of their digests. Each is read once.
    pub fn read<K: Keeper>(
        alloc: Global,
        service: &mut Service<K>,
        name: &RepoName,
    ) -> Result<Namers, Fault>
        ensures found { K.is_honest service.new
            → ReadsBy namers_in result (namers_among (namings_at (K.kept service.old).world name.now))
            (K.kept service.old) (K.kept service.new) }
        ensures spends { Spends result (K.kept service.old) (K.kept service.new) }
        ensures honest { K.is_honest service.new → K.is_honest service.old }
    {
        let manifests = service.manifest_digests(alloc, name)?;
        let mut namers = Namers::new(alloc);
        for manifest in &manifests {
            let names = service.names(alloc, name, manifest)?;
            let Ok(()) = namers.add(alloc, manifest, names) else {
                return Err(Fault::Memory);
            };
        }
        Ok(namers)
    }

    /// Takes away the manifests that name a digest.
    pub fn take(&mut self, alloc: Global, digest: &Digest) -> Vec<Digest>
        ensures given { result.items ≡ namers_in self.old digest.now }
        ensures left { (other : Text) → namers_in self.new other
            ≡ (if bytes_eq digest.now other then [] else namers_in self.old other) }
    {
        match self.manifests.remove(digest) {
            Some(manifests) => manifests,
            None => Vec::new(alloc),
        }
    }
}
