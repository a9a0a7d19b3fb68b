//! What a manifest names: a config and layers, or other manifests.

ghost use Rattle.std.specs.Prelude.{◌≡◌, [], ◌∷◌, ◌++◌, cond, string_bytes, option_map, IfOk, OnOk};
ghost use Rattle.serde_json.specs.View.{view};
ghost use Rattle.oci_types.specs.Part.{Finds};
ghost use Rattle.oci_documents.specs.Shown.{body_shown, contents_shown, descriptor_shown, descriptors_shown, with_digest, with_digests};
ghost use Rattle.oci_types.specs.Manifest.{body_kind, body_of, image_contents, contents_of};

use crate::descriptor::{Descriptor, read_descriptor, read_descriptors};
use crate::member;
use oci_types::{Digest, Kind, ManifestFault};
use serde_json::Value;
use std::alloc::{AllocError, Global};

#[derive(Clone, Copy)]
pub(crate) enum Body<'v> {
    Image {
        config: &'v Value,
        layers: &'v [Value],
    },
    Index {
        manifests: &'v [Value],
    },
}

impl Body<'_> {
    pub(crate) fn kind(&self) -> Kind
        ensures { result ≡ body_kind (body_shown self.now) }
    {
        match self {
            Body::Image { .. } => Kind::Image,
            Body::Index { .. } => Kind::Index,
        }
    }
}

/// What the descriptors of a body say.
pub(crate) struct Contents {
    /// The media type of the config of an image manifest.
    pub(crate) config_type: Option<String>,
    /// The digests whose content has to be there.
    pub(crate) needs: Vec<Digest>,
    /// The digests of the config and the layers.
    pub(crate) names: Vec<Digest>,
}

impl Drop for Contents {
    fn drop(self) {
        let Contents {
            config_type: _,
            needs: _,
            names: _,
        } = self;
    }
}

impl Contents {
    /// Nothing is named yet.
    fn new(alloc: Global, config_type: Option<String>) -> Contents
        ensures { contents_shown result ≡ record {
          config_type = option_map string_bytes config_type;
          needs = [];
          names = [];
        } }
    {
        Contents {
            config_type,
            needs: Vec::new(alloc),
            names: Vec::new(alloc),
        }
    }

    /// Names a digest, which has to be there unless its content lies elsewhere.
    fn name(&mut self, elsewhere: bool, digest: Digest) -> Result<(), AllocError>
        ensures { OnOk result
            (contents_shown self.new ≡ with_digest (contents_shown self.old) elsewhere digest) }
    {
        self.names.push(digest.clone()?)?;
        push_unless(&mut self.needs, elsewhere, digest)
    }

    /// Names the descriptors' digests, in their order.
    fn name_all(&mut self, descriptors: Vec<Descriptor>) -> Result<(), AllocError>
        ensures { OnOk result (contents_shown self.new
            ≡ with_digests (contents_shown self.old) (descriptors_shown descriptors.items)) }
    {
        for descriptor in descriptors {
            let elsewhere = descriptor.elsewhere;
            self.name(elsewhere, descriptor.into_digest())?;
        }
        Ok(())
    }

    /// The media type of the config, the digests that have to be there, and those that are named.
    pub(crate) fn into_parts(self) -> (Option<String>, Vec<Digest>, Vec<Digest>)
        ensures { result ≡ (self.config_type, self.needs, self.names) }
    {
        let Contents {
            config_type,
            needs,
            names,
        } = self;
        (config_type, needs, names)
    }
}

/// With a config it is an image manifest, without one an index; neither has the other's list.
pub(crate) fn read_body(value: &Value) -> Option<Body<'_>>
    ensures { option_map body_shown result ≡ body_of (view value.now) }
{
    match member::present(value, "config") {
        Some(config) => {
            let layers = member::list(value, "layers")?;
            if member::present(value, "manifests").is_some() {
                return None;
            }
            Some(Body::Image { config, layers })
        }
        None => {
            let manifests = member::list(value, "manifests")?;
            if member::present(value, "layers").is_some() {
                return None;
            }
            Some(Body::Index { manifests })
        }
    }
}

/// Adds the digest, unless its content lies elsewhere.
fn push_unless(needs: &mut Vec<Digest>, elsewhere: bool, digest: Digest) -> Result<(), AllocError>
    ensures { OnOk result (needs.new.items ≡ needs.old.items ++ cond elsewhere [] (digest ∷ [])) }
{
    if elsewhere {
        Ok(())
    } else {
        Ok(needs.push(digest)?)
    }
}

/// What an image manifest says by its config and its layers.
fn image_says(
    alloc: Global,
    config: Descriptor,
    layers: Vec<Descriptor>,
) -> Result<Contents, AllocError>
    ensures { IfOk result (λ c. contents_shown c
        ≡ image_contents (descriptor_shown config) (descriptors_shown layers.items)) }
{
    let elsewhere = config.elsewhere;
    let (media_type, digest) = config.into_parts();
    let mut contents = Contents::new(alloc, Some(media_type));
    contents.name(elsewhere, digest)?;
    contents.name_all(layers)?;
    Ok(contents)
}

/// What the body's descriptors say, once each of them is one.
pub(crate) fn read_contents(alloc: Global, body: &Body<'_>) -> Result<Contents, ManifestFault>
    ensures { Finds ManifestFault.Descriptor contents_shown result (contents_of (body_shown body.now)) }
{
    match body {
        Body::Image { config, layers } => {
            let config = read_descriptor(alloc, ManifestFault::Descriptor, config)?;
            let layers = read_descriptors(alloc, ManifestFault::Descriptor, layers)?;
            Ok(image_says(alloc, config, layers)?)
        }
        Body::Index { manifests } => {
            drop(read_descriptors(alloc, ManifestFault::Descriptor, manifests)?);
            Ok(Contents::new(alloc, None))
        }
    }
}
