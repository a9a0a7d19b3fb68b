//! A manifest's bytes, with what look-ups ask of their reading.
ghost use Rattle.std.specs.Prelude.{◌≡◌, length, Ok, IfOk};
ghost use Rattle.oci_types.specs.Manifest.{shown, manifest_in};
ghost use Rattle.registry_model.specs.Manifests.{kind_in, is_text};
ghost use Rattle.registry_model.specs.Referrers.{subject_or_none};

use oci_types::{Digest, Kind, Manifest};
use std::alloc::{AllocError, Global};
use std::marker::Model;

/// The bytes of a manifest, with the kind and the subject as which they read.
pub struct KeptManifest {
    bytes: Vec<u8>,
    kind: Kind,
    subject: Option<Digest>,
}

impl Drop for KeptManifest {
    fn drop(self) {
        let KeptManifest {
            bytes: _,
            kind: _,
            subject: _,
        } = self;
    }
}

impl Model for KeptManifest {
    ghost use Rattle.std.specs.Prelude.{◌≡◌, List, ℕ};
    ghost use Rattle.oci_types.specs.Manifest.{manifest_in};
    ghost use Rattle.registry_model.specs.Manifests.{kind_in};
    ghost use Rattle.registry_model.specs.Referrers.{subject_or_none};

    ghost Value = { List ℕ };

    ghost view = { λ m. m.bytes.items };

    ghost invariant = { λ m. (m.kind ≡ kind_in m.bytes.items)
        × (m.subject ≡ subject_or_none (manifest_in m.bytes.items)) };
}

impl KeptManifest {
    /// Keeps a copy of the bytes, which read as the manifest.
    pub fn new(alloc: Global, bytes: &[u8], manifest: &Manifest) -> Result<KeptManifest, AllocError>
        requires { manifest_in bytes.now ≡ Ok (shown manifest.now) }
        ensures { IfOk result (λ m. m ≡ bytes.now) }
    {
        let kind = manifest.kind;
        let subject = match &manifest.subject {
            Some(digest) => Some(digest.clone()?),
            None => None,
        };
        let bytes = bytes.to_vec(alloc)?;
        Ok(KeptManifest {
            bytes,
            kind,
            subject,
        })
    }

    /// A copy of the bytes.
    pub fn to_vec(&self, alloc: Global) -> Result<Vec<u8>, AllocError>
        ensures { IfOk result (λ v. v.items ≡ self.now) }
    {
        self.bytes.as_slice().to_vec(alloc)
    }

    /// The length of the bytes.
    pub fn len(&self) -> u64
        ensures { result ≡ length self.now }
    {
        self.bytes.len() as u64
    }

    pub fn kind(&self) -> Kind
        ensures { result ≡ kind_in self.now }
    {
        self.kind
    }

    pub fn has_subject(&self, digest: &Digest) -> bool
        ensures { result ≡ is_text digest.now (subject_or_none (manifest_in self.now)) }
    {
        match &self.subject {
            Some(subject) => subject.as_str() == digest.as_str(),
            None => false,
        }
    }
}
