//! The kind of a manifest.

ghost use Rattle.std.specs.Prelude.{◌≡◌};
ghost use Rattle.oci_types.specs.Kind.{media_type_of, kind_number};

/// An image manifest or an index (OCI Image Specification 1.1, manifest.md and image-index.md).
#[derive(Clone, Copy, Debug, PartialEq, Eq)]
pub enum Kind {
    /// It has a config and layers.
    Image,
    /// It has other manifests.
    Index,
}

impl Kind {
    /// The media type of a manifest of this kind.
    pub fn media_type(self) -> &'static str
        ensures { result.now ≡ media_type_of self }
    {
        match self {
            Kind::Image => "application/vnd.oci.image.manifest.v1+json",
            Kind::Index => "application/vnd.oci.image.index.v1+json",
        }
    }

    /// 1 for an image manifest, 2 for an index: how a table keeps the kind.
    pub fn number(self) -> u8
        ensures { result ≡ kind_number self }
    {
        match self {
            Kind::Image => 1,
            Kind::Index => 2,
        }
    }
}
