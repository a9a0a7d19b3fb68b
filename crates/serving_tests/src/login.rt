//! Where clients log in, and what tells that the service goes on.

use crate::runs::reply_text;
use crate::setting::{same, setting};
use crate::texts::TOKEN_REQUIRED;
use registry_model::{Query, Request, Resource, Route, Scheme, Settings, Verb};
use std::alloc::Global;
use std::process::Abort;

const TOLD: &str = "HTTP/1.1 200 OK\r\nContent-Length: 51\r\nContent-Type: application/json\r\n\
      Cache-Control: no-store\r\n\r\n\
      {\"access_token\":\"t1\",\"expires_in\":300,\"token\":\"t1\"}";

const REFUSED: &str =
    "HTTP/1.1 401 Unauthorized\r\nContent-Length: 63\r\nContent-Type: application/json\r\n\
      WWW-Authenticate: Basic realm=\"firkhen\"\r\n\r\n\
      {\"errors\":[{\"code\":\"UNAUTHORIZED\",\"message\":\"token required\"}]}";

const READ_ALONE: &str =
    "HTTP/1.1 405 Method Not Allowed\r\nContent-Length: 66\r\nContent-Type: application/json\r\n\
      Allow: GET, HEAD\r\n\r\n\
      {\"errors\":[{\"code\":\"UNSUPPORTED\",\"message\":\"method not allowed\"}]}";

const WELL: &str = "HTTP/1.1 200 OK\r\nContent-Length: 3\r\nContent-Type: text/plain\r\n\r\nok\n";

const AT_HOST: &str =
    "HTTP/1.1 401 Unauthorized\r\nContent-Length: 63\r\nContent-Type: application/json\r\n\
      WWW-Authenticate: Bearer realm=\"https://[::1]:7000/token\",service=\"firkhen\"\r\n\r\n\
      {\"errors\":[{\"code\":\"UNAUTHORIZED\",\"message\":\"token required\"}]}";

/// A method on what a path names, with credentials, and what is told.
type Row = (Verb, Resource, Option<&'static [u8]>, &'static str);

/// Credentials by `printf u1:t1 | base64` and the like.
static ROWS: [Row; 15] = [
    (Verb::Get, Resource::Tokens, Some(b"dTE6dDE="), TOLD),
    (Verb::Head, Resource::Tokens, Some(b"dTE6dDE="), TOLD),
    // no name; a name that is no UTF-8
    (Verb::Get, Resource::Tokens, Some(b"OnQx"), TOLD),
    (Verb::Get, Resource::Tokens, Some(b"dek6dDE="), TOLD),
    (Verb::Get, Resource::Tokens, None, REFUSED),
    // not padded; of no such characters; `u1`, `u1:`, `u1:a:b`, `u1:t 1`
    (Verb::Get, Resource::Tokens, Some(b"dTE6dDE"), REFUSED),
    (Verb::Get, Resource::Tokens, Some(b"dTE6dDE-"), REFUSED),
    (Verb::Get, Resource::Tokens, Some(b"dTE="), REFUSED),
    (Verb::Get, Resource::Tokens, Some(b"dTE6"), REFUSED),
    (Verb::Get, Resource::Tokens, Some(b"dTE6YTpi"), REFUSED),
    (Verb::Get, Resource::Tokens, Some(b"dTE6dCAx"), REFUSED),
    (Verb::Post, Resource::Tokens, Some(b"dTE6dDE="), READ_ALONE),
    (Verb::Get, Resource::Health, None, WELL),
    (Verb::Head, Resource::Health, None, WELL),
    (Verb::Put, Resource::Health, None, READ_ALONE),
];

/// Hosts, and what a request without a token is told where clients log in.
static HOSTS: [(Option<&str>, &str); 4] = [
    (Some("[::1]:7000"), AT_HOST),
    (Some("a\"b"), TOKEN_REQUIRED),
    (Some(""), TOKEN_REQUIRED),
    (None, TOKEN_REQUIRED),
];

/// A request without a bearer token to a server where clients log in.
fn request<'a>(
    method: Verb,
    resource: Resource,
    host: Option<&'a str>,
    basic: Option<&'a [u8]>,
) -> Request<'a> {
    Request {
        settings: Settings {
            login: Some(Scheme::Https),
            health: true,
        },
        resource,
        host,
        basic,
        token: None,
        method,
        route: Route::Base,
        query: Query {
            digest: None,
            mount: None,
            from: None,
            n: None,
            last: None,
            artifact_type: None,
        },
        content_type: None,
        content_range: None,
        body: b"",
    }
}

/// This is told of a request.
fn is_told(rt: &impl Abort, alloc: Global, place: usize, request: &Request, told: &str) {
    let mut registry = setting(rt, alloc);
    let reply = registry.handle(alloc, request);
    let text = reply_text(rt, alloc, &reply);
    same(rt, place, text.as_slice(), told.as_bytes());
}

#[test]
fn a_password_is_handed_back(rt: HostRuntime) {
    for (place, (method, resource, basic, told)) in ROWS.iter().enumerate() {
        let request = request(*method, *resource, None, *basic);
        is_told(&rt, rt.alloc(), place, &request, told);
    }
}

#[test]
fn a_challenge_names_the_host(rt: HostRuntime) {
    for (place, (host, told)) in HOSTS.iter().enumerate() {
        let request = request(Verb::Get, Resource::Registry, *host, None);
        is_told(&rt, rt.alloc(), place, &request, told);
    }
}
