//! The manifest that bytes spell.

ghost use Rattle.std.specs.Prelude.{◌≡◌, ◌≢◌, option_map, string_bytes, IfOk, IfErr, MatchResult};
ghost use Rattle.serde_json.specs.View.{view};
ghost use Rattle.oci_types.specs.Part.{Finds};
ghost use Rattle.oci_types.specs.Rules.{Gives};
ghost use Rattle.oci_types.specs.Manifest.{document_in, version_of, own_type_of, subject_of, artifact_type_of, ManifestShown, shown, manifest_of, manifest_in};
ghost use Rattle.oci_types.specs.Reads.{ReadsAs};
ghost use Rattle.oci_types.specs.FirstFault.{Refuses};

use crate::body::{read_body, read_contents};
use crate::descriptor::read_descriptor;
use crate::member;
use oci_types::{Digest, Kind, Manifest, ManifestFault};
use serde_json::Value;
use std::alloc::{AllocError, Global};

fn read_document(alloc: Global, bytes: &[u8]) -> Result<Value, ManifestFault>
    ensures { Finds ManifestFault.NotJson (λ v. view v) result (document_in bytes.now) }
{
    match Value::from_slice(alloc, bytes) {
        Ok(value) => Ok(value),
        Err(error) => {
            if error.is_memory() {
                Err(ManifestFault::Memory)
            } else {
                Err(ManifestFault::NotJson)
            }
        }
    }
}

fn check_version(value: &Value) -> Result<(), ManifestFault>
    ensures { Finds ManifestFault.SchemaVersion (λ u. u) result (version_of (view value.now)) }
{
    let fault = ManifestFault::SchemaVersion;
    match value.get("schemaVersion") {
        Some(member) => match member.as_u64() {
            Some(2) => Ok(()),
            _ => Err(fault),
        },
        None => Err(fault),
    }
}

fn check_own_type(kind: Kind, value: &Value) -> Result<(), ManifestFault>
    ensures { Finds ManifestFault.MediaType (λ u. u) result (own_type_of kind (view value.now)) }
{
    match member::optional_text(ManifestFault::MediaType, value, "mediaType")? {
        None => Ok(()),
        Some(text) => {
            if text.is_empty() || text == kind.media_type() {
                Ok(())
            } else {
                Err(ManifestFault::MediaType)
            }
        }
    }
}

fn read_subject(alloc: Global, value: &Value) -> Result<Option<Digest>, ManifestFault>
    ensures { Finds ManifestFault.Subject (λ o. o) result (subject_of (view value.now)) }
{
    match member::present(value, "subject") {
        None => Ok(None),
        Some(found) => {
            let descriptor = read_descriptor(alloc, ManifestFault::Subject, found)?;
            Ok(Some(descriptor.into_digest()))
        }
    }
}

fn choose_artifact_type(
    alloc: Global,
    own: Option<&str>,
    config_type: Option<String>,
) -> Result<Option<String>, AllocError>
    ensures { IfOk result (λ o. option_map string_bytes o
        ≡ artifact_type_of (option_map (λ s. s.now) own.entry)
        (option_map string_bytes config_type)) }
{
    match own {
        None => Ok(config_type),
        Some(text) => {
            if text.is_empty() {
                Ok(config_type)
            } else {
                Ok(Some(String::from_str(alloc, text)?))
            }
        }
    }
}

/// The rules, in their order.
#[tactic(auto, unfolding(oci_types::specs::Manifest::manifest_of))]
fn read_rules(alloc: Global, value: &Value) -> Result<Manifest, ManifestFault>
    ensures { Gives shown result (manifest_of (view value.now)) }
{
    let Some(_members) = value.as_object() else {
        return Err(ManifestFault::NotObject);
    };
    check_version(value)?;
    let Some(body) = read_body(value) else {
        return Err(ManifestFault::Kind);
    };
    let kind = body.kind();
    check_own_type(kind, value)?;
    let contents = read_contents(alloc, &body)?;
    let annotations = member::texts(alloc, ManifestFault::Annotations, value, "annotations")?;
    let subject = read_subject(alloc, value)?;
    let own = member::optional_text(ManifestFault::ArtifactType, value, "artifactType")?;
    let (config_type, needs, names) = contents.into_parts();
    let artifact_type = choose_artifact_type(alloc, own, config_type)?;
    Ok(Manifest {
        kind,
        artifact_type,
        needs,
        names,
        subject,
        annotations,
    })
}

/// The manifest that the bytes spell (OCI Image Specification 1.1, manifest.md and image-index.md), or
/// the first rule that they break: they are UTF-8, one JSON value, nesting at most 127 deep; an object;
/// of schema version 2; an image manifest or an index, and not both; with no other media type than that
/// of its kind; all its descriptors are ones; and annotations, subject and artifact type have their
/// forms. Members that no rule names are ignored.
#[tactic(auto, unfolding(oci_types::specs::Manifest::manifest_in))]
pub fn read_manifest(alloc: Global, bytes: &[u8]) -> Result<Manifest, ManifestFault>
    ensures exact { Gives shown result (manifest_in bytes.now) }
    ensures found { IfOk result (λ m. ReadsAs bytes.now (shown m)) }
    ensures only { (said : ManifestShown) → ReadsAs bytes.now said
        → MatchResult result (λ m. shown m ≡ said) (λ fault. fault ≡ ManifestFault.Memory) }
    ensures first_fault { IfErr result (λ fault. fault ≢ ManifestFault.Memory → Refuses bytes.now fault) }
{
    let value = read_document(alloc, bytes)?;
    read_rules(alloc, &value)
}
