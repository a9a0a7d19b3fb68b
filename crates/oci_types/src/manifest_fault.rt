//! Why bytes are no manifest.

ghost use Rattle.std.specs.Prelude.{◌≡◌};
ghost use Rattle.oci_types.specs.ManifestFault.{fault_number};
ghost use Rattle.oci_types.specs.declared.manifest_fault.ManifestFault.TheVariants.{Memory};

use std::alloc::{AllocError, AllocFailed};
use std::error::Error;
use std::fmt;

/// The first rule that the bytes break, or want of memory.
#[derive(Clone, Copy, Debug, PartialEq, Eq)]
pub enum ManifestFault {
    /// They are not the UTF-8 text of one JSON value that nests at most 127 deep.
    NotJson,
    /// The value is not an object.
    NotObject,
    /// `schemaVersion` is not the whole number 2.
    SchemaVersion,
    /// They are neither an image manifest nor an index.
    Kind,
    /// `mediaType` is there and is not the kind's own.
    MediaType,
    /// The config, a layer or a member of `manifests` is no descriptor.
    Descriptor,
    /// `annotations` is there and is no object of texts.
    Annotations,
    /// `subject` is there and is no descriptor.
    Subject,
    /// `artifactType` is there and is no text.
    ArtifactType,
    /// Memory ran out; of the bytes nothing is said.
    Memory,
}

impl ManifestFault {
    /// The rule's place in the order in which the rules are tried, from 1; 10 for want of memory.
    pub fn number(self) -> u8
        ensures { result ≡ fault_number self }
    {
        match self {
            ManifestFault::NotJson => 1,
            ManifestFault::NotObject => 2,
            ManifestFault::SchemaVersion => 3,
            ManifestFault::Kind => 4,
            ManifestFault::MediaType => 5,
            ManifestFault::Descriptor => 6,
            ManifestFault::Annotations => 7,
            ManifestFault::Subject => 8,
            ManifestFault::ArtifactType => 9,
            ManifestFault::Memory => 10,
        }
    }
}

impl fmt::Display for ManifestFault {
    ghost use Rattle.std.specs.Prelude.{Some};
    ghost use Rattle.oci_types.specs.ManifestFault.{fault_text};

    ghost output = { λ fault. Some (fault_text fault) };

    fn fmt<W: fmt::Write>(&self, f: &mut fmt::Formatter<W>) -> fmt::Result {
        f.write_str(match self {
            ManifestFault::NotJson => "not a JSON text",
            ManifestFault::NotObject => "not a JSON object",
            ManifestFault::SchemaVersion => "the schema version is not 2",
            ManifestFault::Kind => "neither an image manifest nor an index",
            ManifestFault::MediaType => "the media type is not that of its kind",
            ManifestFault::Descriptor => "a malformed descriptor",
            ManifestFault::Annotations => "malformed annotations",
            ManifestFault::Subject => "a malformed subject",
            ManifestFault::ArtifactType => "a malformed artifact type",
            ManifestFault::Memory => "out of memory",
        })
    }
}

impl Error for ManifestFault {}

impl From<AllocError> for ManifestFault {
    ghost from_gives = { λ _ e. e ≡ Memory };

    fn from(_refused: AllocError) -> ManifestFault {
        ManifestFault::Memory
    }
}

impl<T: Drop> From<AllocFailed<T>> for ManifestFault {
    ghost from_gives = { λ _ e. e ≡ Memory };

    fn from(_refused: AllocFailed<T>) -> ManifestFault {
        ManifestFault::Memory
    }
}
