//! What becomes of a large body as it comes.

ghost use Rattle.std.specs.Prelude.{length};
ghost use Rattle.httparse.specs.Spans.{IsWithin};
ghost use Rattle.registry_http.specs.Reading.{HeadFits};

use crate::part::Part;
use httparse::spans::{HeaderSpan, RequestSpans};
use registry_holding::Holder;
use registry_http::query::{Values, text_if};
use registry_http::target::{decode_path, route_if, split_target, verb};
use registry_http::token::token;
use registry_model::{LARGEST_MANIFEST, Route, Verb};
use registry_service::Service;
use std::alloc::{AllocError, Global};

/// What becomes of a large body as it comes. Whatever is chosen, no answer is another, but that one for which
/// bytes are wanting is 503.
#[derive(Clone, Copy)]
pub enum BodyPlan {
    /// It stays behind its head, in memory of the connection.
    Keep,
    /// It is staged.
    Stage {
        /// How many bytes it has, or 0 where that is not known.
        size: u64,
        /// It is compared with a digest of SHA-512.
        with_sha512: bool,
    },
    /// It is counted alone: the answer does not depend on its bytes.
    Count,
}

/// Whether the body of such a request may be bytes of a blob (OCI Distribution Specification 1.1, Pushing
/// blobs).
fn takes_blob(route: Route, method: Verb) -> bool {
    match route {
        Route::Uploads { .. } => matches!(method, Verb::Post),
        Route::Session { .. } => matches!(method, Verb::Patch | Verb::Put),
        _ => false,
    }
}

/// Whether it is a manifest (OCI Distribution Specification 1.1, Pushing Manifests).
fn takes_manifest(route: Route, method: Verb) -> bool {
    match route {
        Route::Manifest { .. } => matches!(method, Verb::Put),
        _ => false,
    }
}

/// Whether a digest is one of SHA-512.
fn is_sha512(digest: Option<&str>) -> bool {
    match digest {
        Some(digest) => digest.starts_with("sha512:"),
        None => false,
    }
}

/// How many bytes a body has whose next part this is, or 0 where that is not known.
fn size_of(part: Part) -> u64 {
    match part {
        Part::Length { size, .. } => size as u64,
        _ => 0,
    }
}

/// A manifest is read whole; one that is larger than any is refused by its length.
fn plan_manifest(size: u64) -> BodyPlan {
    if size > LARGEST_MANIFEST {
        BodyPlan::Count
    } else {
        BodyPlan::Keep
    }
}

impl BodyPlan {
    /// Whether it stays where it is.
    pub fn keeps(self) -> bool {
        matches!(self, BodyPlan::Keep)
    }

    /// Whether it waits for room to be staged, where it may be.
    pub fn waits<K: Holder>(self, service: &Service<K>, may_stage: bool) -> bool {
        match self {
            BodyPlan::Stage { size, .. } => !may_stage || !service.has_room(size),
            _ => false,
        }
    }
}

/// What becomes of a body that is pushed to an upload. A session that is begun without a digest takes none.
fn plan_upload(route: Route, digest: Option<&str>, part: Part) -> BodyPlan {
    if matches!(route, Route::Uploads { .. }) && digest.is_none() {
        return BodyPlan::Count;
    }
    BodyPlan::Stage {
        size: size_of(part),
        with_sha512: is_sha512(digest),
    }
}

/// What becomes of the body behind a head that has a token, from this part on, of which so many bytes came.
fn plan_with_token(
    alloc: Global,
    head: &[u8],
    spans: &RequestSpans,
    part: Part,
    came: usize,
) -> Result<BodyPlan, AllocError>
    requires method { IsWithin (length head.now) spans.now.method }
    requires path { IsWithin (length head.now) spans.now.path }
{
    let method = verb(spans.method.of(head));
    let target = spans.path.of(head);
    let path = decode_path(alloc, target)?;
    let route = route_if(text_if(&path));
    if takes_manifest(route, method) {
        return Ok(plan_manifest(size_of(part).max(came as u64)));
    }
    if !takes_blob(route, method) {
        return Ok(BodyPlan::Count);
    }
    let values = Values::of(alloc, split_target(target).query)?;
    Ok(plan_upload(route, values.query().digest, part))
}

/// What becomes of the body behind a head, from this part on, of which so many bytes came. A request without
/// a token is refused whatever its body is (RFC 6750, section 3). Where memory is wanting to read the target,
/// the body is counted alone.
pub fn plan_body(
    alloc: Global,
    head: &[u8],
    fields: &[HeaderSpan],
    spans: &RequestSpans,
    part: Part,
    came: usize,
) -> BodyPlan
    requires { HeadFits (length head.now) fields.now spans.now }
{
    if token(head, fields).is_none() {
        return BodyPlan::Count;
    }
    match plan_with_token(alloc, head, spans, part, came) {
        Ok(plan) => plan,
        Err(_) => BodyPlan::Count,
    }
}
