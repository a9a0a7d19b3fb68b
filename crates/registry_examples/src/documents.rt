//! What manifests say, and the first rules that they break, as the lines of an answer.

use crate::commands::refused;
use anyhow::Result;
use oci_documents::read_manifest;
use oci_types::Manifest;
use std::alloc::Global;
use std::fmt::Write;

/// `fits`, or the first rule that the manifest breaks.
pub fn fault_in(alloc: Global, manifest: &[u8]) -> Result<String> {
    let fault = match read_manifest(alloc, manifest) {
        Ok(_) => None,
        Err(fault) => Some(fault),
    };
    match fault {
        Some(fault) => refused(alloc, &fault),
        None => Ok(String::from_str(alloc, "fits\r\n")?),
    }
}

/// What the manifest says, or the first rule that it breaks.
pub fn reading_of(alloc: Global, manifest: &[u8]) -> Result<String> {
    match read_manifest(alloc, manifest) {
        Ok(manifest) => {
            let mut text = String::new(alloc);
            show(&mut text, &manifest)?;
            Ok(text)
        }
        Err(fault) => refused(alloc, &fault),
    }
}

/// Adds a line for the kind and the artifact type, and one for each further thing that it says.
fn show(text: &mut String, manifest: &Manifest) -> Result<()> {
    let kind = manifest.kind;
    write!(text, "{kind:?}\r\n")?;
    if let Some(artifact_type) = &manifest.artifact_type {
        add_line(text, "artifact type", artifact_type.as_str())?;
    }
    for digest in manifest.needs.iter() {
        add_line(text, "needs", digest.as_str())?;
    }
    if let Some(digest) = &manifest.subject {
        add_line(text, "subject", digest.as_str())?;
    }
    for (key, value) in manifest.annotations.iter() {
        write!(text, "annotation {key} = {value}\r\n")?;
    }
    Ok(())
}

fn add_line(text: &mut String, what: &str, said: &str) -> Result<()> {
    write!(text, "{what} {said}\r\n")?;
    Ok(())
}
