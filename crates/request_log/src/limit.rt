//! Which limit a refused request met, as a log tells it. The statuses that say so are 413 (RFC 9110, section
//! 15.5.14) and 429 (RFC 6585, section 4); the limits are those of `registry_model` (profile).

use registry_http::query::text_if;
use registry_http::target::{decode_path, route_if};
use registry_model::{LARGEST_BLOB, LARGEST_MANIFEST, MOST_SESSIONS, Route};
use registry_outbox::{Asked, Endpoint, Report};
use std::alloc::Global;

/// A limit that a refused request met.
#[derive(Clone, Copy)]
pub struct Limit {
    /// So many bytes, or so many open upload sessions.
    pub most: u64,
    /// What there may be at most so much of, in the words of the log: `bytes of a blob`, `open uploads`.
    pub of: &'static str,
}

/// What there may be at most so many bytes of, in the words of the log, and how many.
fn most_bytes(asked: Option<&Asked>) -> (u64, &'static str) {
    match asked {
        // Its body was too long, whatever it is of.
        None => (LARGEST_BLOB, "bytes of a body"),
        Some(asked) => match asked.endpoint {
            Some(Endpoint::Manifest) => (LARGEST_MANIFEST, "bytes of a manifest"),
            _ => (LARGEST_BLOB, "bytes of a blob"),
        },
    }
}

/// The limit that a request met, where its status says that it met one: 413 or 429.
pub fn limit_met(report: &Report) -> Option<Limit> {
    let (most, of) = match report.status {
        413 => most_bytes(report.asked.as_ref()),
        429 => (MOST_SESSIONS, "open uploads"),
        _ => return None,
    };
    Some(Limit { most, of })
}

/// The name in a path.
fn name_in<'a>(route: Route<'a>) -> Option<&'a str> {
    match route {
        Route::NoForm | Route::Base => None,
        Route::Blob { name, .. }
        | Route::Uploads { name }
        | Route::Session { name, .. }
        | Route::Manifest { name, .. }
        | Route::Tags { name }
        | Route::Referrers { name, .. } => Some(name),
    }
}

/// The name in a path that came, decoded, if it has one and memory allows.
fn name_in_path(alloc: Global, path: &str) -> Option<String> {
    let decoded = decode_path(alloc, path.as_bytes()).ok()?;
    let name = name_in(route_if(text_if(&decoded)))?;
    String::from_str(alloc, name).ok()
}

/// The repository for which a request was refused before it was whole; its path came so.
pub fn repository_refused(alloc: Global, report: &Report, path: &str) -> Option<String> {
    if report.asked.is_none() && report.status == 413 {
        name_in_path(alloc, path)
    } else {
        None
    }
}
