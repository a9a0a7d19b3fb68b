//! What is told of a request that was answered or refused, as values.
ghost use Rattle.std.specs.Prelude.{◌≡◌, Some, None, string_bytes, IfSome};
ghost use Rattle.registry_model.specs.Answer.{code_of};
ghost use Rattle.registry_model.specs.Ask.{text_in};
ghost use Rattle.registry_model.specs.Form.{form_of};
ghost use Rattle.registry_outbox.specs.Reports.{endpoint_of, name_of, failure_of, TellsRefusal};

use registry_http::FramingRefusal;
use registry_model::{Request, Route, Verb};
use std::alloc::Global;

/// The form of a request's path (OCI Distribution Specification 1.1, Endpoints), without its texts.
#[derive(Clone, Copy, Debug, PartialEq, Eq)]
pub enum Endpoint {
    NoForm,
    Base,
    Blob,
    Uploads,
    Session,
    Manifest,
    Tags,
    Referrers,
}

/// What a request asks, as far as it is told.
#[derive(Drop)]
pub struct Asked {
    pub verb: Verb,
    /// None where memory was wanting for the text of the path.
    pub endpoint: Option<Endpoint>,
    /// The name in the path, decoded; none where it has none, or where memory was wanting.
    pub repository: Option<String>,
}

/// What was answered to a request, or that it was refused before it was whole.
#[derive(Drop)]
pub struct Report {
    /// The status code of the reply.
    pub status: u16,
    /// None where it was refused before it was whole.
    pub asked: Option<Asked>,
    /// How many bytes its body has; 0 where it was refused before it was whole.
    pub came: usize,
    /// How many bytes were put out for it; fewer than the reply has where memory for that was wanting.
    pub went: usize,
}

/// The form of a path, and the name in it.
fn parts_of<'a>(route: Route<'a>) -> (Endpoint, Option<&'a str>)
    ensures endpoint { result.0 ≡ endpoint_of (form_of route.entry) }
    ensures name { text_in result.1 ≡ name_of (form_of route.entry) }
{
    match route {
        Route::NoForm => (Endpoint::NoForm, None),
        Route::Base => (Endpoint::Base, None),
        Route::Blob { name, digest: _ } => (Endpoint::Blob, Some(name)),
        Route::Uploads { name } => (Endpoint::Uploads, Some(name)),
        Route::Session { name, reference: _ } => (Endpoint::Session, Some(name)),
        Route::Manifest { name, reference: _ } => (Endpoint::Manifest, Some(name)),
        Route::Tags { name } => (Endpoint::Tags, Some(name)),
        Route::Referrers { name, digest: _ } => (Endpoint::Referrers, Some(name)),
    }
}

/// A copy of the text, if there is memory for it.
fn copy_if(alloc: Global, text: Option<&str>) -> Option<String>
    ensures { IfSome result (λ copy. text_in text.entry ≡ Some (string_bytes copy)) }
{
    match text {
        None => None,
        Some(text) => match String::from_str(alloc, text) {
            Ok(copy) => Some(copy),
            Err(_) => None,
        },
    }
}

impl Asked {
    /// What a request asks.
    pub fn of(alloc: Global, request: &Request) -> Asked
        ensures verb { result.verb ≡ request.now.method }
        ensures endpoint { result.endpoint ≡ Some (endpoint_of (form_of request.now.route)) }
        ensures repository { IfSome result.repository
            (λ name. name_of (form_of request.now.route) ≡ Some (string_bytes name)) }
    {
        let (endpoint, name) = parts_of(request.route);
        Asked {
            verb: request.method,
            endpoint: Some(endpoint),
            repository: copy_if(alloc, name),
        }
    }

    /// Its method alone.
    pub fn unread(verb: Verb) -> Asked
        ensures verb { result.verb ≡ verb }
        ensures endpoint { result.endpoint ≡ None }
        ensures repository { result.repository ≡ None }
    {
        Asked {
            verb,
            endpoint: None,
            repository: None,
        }
    }
}

impl Report {
    /// Of a request that was refused before it was whole.
    pub fn refusal(refusal: FramingRefusal, went: usize) -> Report
        ensures refusal { TellsRefusal result refusal }
        ensures went { result.went ≡ went }
    {
        Report {
            status: refusal.code(),
            asked: None,
            came: 0,
            went,
        }
    }
}

/// The status code where memory is wanting, 503, or of a service that is spent, 500.
pub fn failure_code(spent: bool) -> u16
    ensures { result ≡ code_of (failure_of spent).status }
{
    if spent { 500 } else { 503 }
}
