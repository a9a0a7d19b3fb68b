ghost use Rattle.std.specs.Prelude.{◌≡◌, ◌==◌, IfOk, position, bytes_eq};
ghost use Rattle.registry_model.specs.Form.{form_of};
ghost use Rattle.registry_model.specs.Ask.{text_in};
ghost use Rattle.registry_model.specs.Heads.{is_head};
ghost use Rattle.registry_http.specs.Asking.{verb_of, path_in, query_in, path_text, form_if, resource_if};
ghost use Rattle.registry_http.specs.Decoding.{cow_text};

use percent_encoding::{DecodeError, percent_decode};
use registry_model::{Resource, Route, Settings, Verb};
use std::alloc::{AllocError, Global};
use std::borrow::CowStr;

/// A target's path, and its query behind the first `?` (RFC 9112, section 3.2.1).
#[derive(Clone, Copy)]
pub struct Target<'a> {
    pub path: &'a [u8],
    pub query: &'a [u8],
}

/// Whether a method is the one of this name.
fn is(method: &[u8], name: &[u8]) -> bool
    ensures { result ≡ bytes_eq method.now name.now }
{
    method == name
}

/// The method, byte for byte (RFC 9110, section 9.1).
pub fn verb(method: &[u8]) -> Verb
    ensures { result ≡ verb_of method.now }
{
    if is(method, b"GET") {
        Verb::Get
    } else if is(method, b"HEAD") {
        Verb::Head
    } else if is(method, b"POST") {
        Verb::Post
    } else if is(method, b"PATCH") {
        Verb::Patch
    } else if is(method, b"PUT") {
        Verb::Put
    } else if is(method, b"DELETE") {
        Verb::Delete
    } else {
        Verb::Other
    }
}

/// Whether the method is HEAD.
pub fn is_head(method: &[u8]) -> bool
    ensures { result ≡ is_head (verb_of method.now) }
{
    match verb(method) {
        Verb::Head => true,
        _ => false,
    }
}

/// The first place of a byte.
fn find_byte(bytes: &[u8], byte: u8) -> Option<usize>
    ensures { result ≡ position (λ b. b == byte) bytes.now }
{
    bytes.iter().position(|other| *other == byte)
}

/// Splits a target at its first `?`.
pub fn split_target(target: &[u8]) -> Target<'_>
    ensures path { result.path.now ≡ path_in target.now }
    ensures query { result.query.now ≡ query_in target.now }
{
    match find_byte(target, b'?') {
        Some(at) => Target {
            path: &target[..at],
            query: &target[at + 1..],
        },
        None => Target {
            path: target,
            query: b"",
        },
    }
}

/// The path of a target, percent-decoded once, where it is UTF-8; `%` that does not begin an escape
/// stays.
pub fn decode_path(alloc: Global, target: &[u8]) -> Result<Option<CowStr<'_, Global>>, AllocError>
    ensures { IfOk result (λ path. cow_text path ≡ path_text target.now) }
{
    match percent_decode(split_target(target).path).decode_utf8(alloc) {
        Ok(path) => Ok(Some(path)),
        Err(DecodeError::Utf8(_)) => Ok(None),
        Err(DecodeError::OutOfMemory) => Err(AllocError),
    }
}

/// What a path names; one that is not UTF-8 names no more than an endpoint of the registry that is none.
pub fn resource_if(settings: &Settings, path: Option<&str>) -> Resource
    ensures { result ≡ resource_if settings.now (text_in path.entry) }
{
    match path {
        None => Resource::Registry,
        Some(path) => settings.resource_at(path),
    }
}

/// The form of a path; one that is not UTF-8 has none.
pub fn route_if(path: Option<&str>) -> Route<'_>
    ensures { form_of result ≡ form_if (text_in path.entry) }
{
    match path {
        None => Route::NoForm,
        Some(path) => Route::from_path(path),
    }
}
