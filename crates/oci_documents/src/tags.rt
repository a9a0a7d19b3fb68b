//! The body of a list of tags.

ghost use Rattle.std.specs.Prelude.{◌≡◌, string_bytes, IfOk, IfErr};
ghost use Rattle.serde_json.specs.View.{view, items_view};
ghost use Rattle.oci_types.specs.Member.{text_items};
ghost use Rattle.oci_types.specs.Tags.{tags_line, tags_data};

use crate::reply::written;
use oci_types::{Fault, RepoName, Tag};
use serde_json::{Value, json};
use std::alloc::{AllocError, Global};

fn tag_values(alloc: Global, tags: &[Tag]) -> Result<Vec<Value>, AllocError>
    ensures { IfOk result (λ v. items_view v.items ≡ text_items tags.now) }
{
    let mut values = Vec::new(alloc);
    for tag in tags {
        values.push(Value::try_from_str(alloc, tag.as_str())?)?;
    }
    Ok(values)
}

fn tags_value(alloc: Global, name: &RepoName, tags: &[Tag]) -> Result<Value, AllocError>
    ensures { IfOk result (λ v. view v ≡ tags_data name.now tags.now) }
{
    let tags = Value::Array(tag_values(alloc, tags)?);
    json!(in alloc; {"name": name.as_str(), "tags": tags})
}

/// The tags of a repository, in the order given (OCI Distribution Specification 1.1, Listing Tags), as
/// compact JSON. It fails only for want of memory.
pub fn tags_text(alloc: Global, name: &RepoName, tags: &[Tag]) -> Result<String, Fault>
    ensures text { IfOk result (λ s. string_bytes s ≡ tags_line name.now tags.now) }
    ensures memory { IfErr result (λ e. e ≡ Fault.Memory) }
{
    written(alloc, tags_value(alloc, name, tags))
}
