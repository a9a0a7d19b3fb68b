//! Where the next page of a list of tags begins.

ghost use Rattle.std.specs.Prelude.{◌≡◌, IfOk, MatchResult, string_bytes};
ghost use Rattle.registry_model.specs.TagPage.{next_link};

use oci_types::{Fault, RepoName, Tag};
use std::alloc::{AllocError, Global};

fn written(alloc: Global, name: &RepoName, n: u64, last: &Tag) -> Result<String, AllocError>
    ensures { IfOk result (λ s. string_bytes s ≡ next_link name.now n last.now) }
{
    let name = name.as_str();
    let last = last.as_str();
    format!(in alloc; "</v2/{name}/tags/list?n={n}&last={last}>; rel=\"next\"")
}

/// The value of `Link` on a page of `n` tags that ends with `last` and behind which more follow
/// (OCI Distribution Specification 1.1, Listing Tags; RFC 8288). The only fault is `Fault::Memory`.
pub fn page_link(alloc: Global, name: &RepoName, n: u64, last: &Tag) -> Result<String, Fault>
    ensures { MatchResult result (λ s. string_bytes s ≡ next_link name.now n last.now)
        (λ fault. fault ≡ Fault.Memory) }
{
    match written(alloc, name, n, last) {
        Ok(link) => Ok(link),
        Err(_) => Err(Fault::Memory),
    }
}
