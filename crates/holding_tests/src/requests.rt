//! Requests whose bodies are staged, and such whose bodies were let fall.

use crate::staged::{ABC, WIDE};
use oci_types::{RepoName, Token};
use registry_holding::{Holder, Holding};
use registry_maps::MapKeeper;
use registry_model::{AdminCommand, Level, Query, Quota, Request, Resource, Route, Settings, Verb};
use registry_service::{CountedBody, Service, StagedBody};
use std::alloc::Global;
use std::process::Abort;

pub type Registry = Service<Holding<MapKeeper>>;

/// The repository `team/app` with this quota, to which `t1` pushes and which `t2` pulls.
pub fn registry_with(rt: &impl Abort, alloc: Global, quota: u64) -> Registry {
    registry_within(rt, alloc, quota, u64::MAX)
}

/// The same, where so many bytes may be staged.
pub fn registry_within(rt: &impl Abort, alloc: Global, quota: u64, most: u64) -> Registry {
    let holding = Holding::within(alloc, MapKeeper::new(alloc), most, 0);
    registry_over(rt, alloc, holding, quota)
}

/// The same over an empty registry.
pub fn registry_over(
    rt: &impl Abort,
    alloc: Global,
    holding: Holding<MapKeeper>,
    quota: u64,
) -> Registry {
    let mut registry = Service::new(holding);
    let name = &RepoName::parse(alloc, "team/app").expect(rt, "a name");
    let quota = Quota::new(quota).expect(rt, "a quota");
    let added = registry.admin(alloc, &AdminCommand::AddRepo { name, quota });
    added.expect(rt, "a repository");
    for (token, level) in [("t1", Level::Push), ("t2", Level::Pull)] {
        let token = &Token::parse(alloc, token).expect(rt, "a token");
        let granted = registry.admin(alloc, &AdminCommand::Grant { token, name, level });
        granted.expect(rt, "a level");
    }
    registry
}

/// A request without a body of its own.
pub fn request<'a>(
    token: &'a str,
    method: Verb,
    route: Route<'a>,
    digest: Option<&'a str>,
) -> Request<'a> {
    Request {
        settings: Settings::profile(),
        resource: Resource::Registry,
        host: None,
        basic: None,
        token: Some(token),
        method,
        route,
        query: Query {
            digest,
            mount: None,
            from: None,
            n: None,
            last: None,
            artifact_type: None,
        },
        content_type: None,
        content_range: None,
        body: b"",
    }
}

const UPLOADS: Route<'static> = Route::Uploads { name: "team/app" };

const SESSION: Route<'static> = Route::Session {
    name: "team/app",
    reference: "1",
};

const MANIFEST: Route<'static> = Route::Manifest {
    name: "team/app",
    reference: "v1",
};

/// Who asks what, by which digest, with these bytes staged, and the status of the reply.
type Row = (
    &'static str,
    Verb,
    Route<'static>,
    Option<&'static str>,
    &'static [u8],
    u16,
);

/// Of a quota of 9 bytes: three are taken by the first, and two by the session's first chunk.
static ROWS: [Row; 11] = [
    ("t1", Verb::Post, UPLOADS, Some(ABC), b"abc", 201),
    ("t1", Verb::Post, UPLOADS, Some(ABC), b"abd", 400),
    ("t1", Verb::Post, UPLOADS, Some("sha256:1"), b"abc", 400),
    ("t2", Verb::Post, UPLOADS, Some(ABC), b"abc", 403),
    ("t3", Verb::Post, UPLOADS, Some(ABC), b"abc", 401),
    ("t1", Verb::Put, UPLOADS, Some(ABC), b"abc", 405),
    ("t1", Verb::Post, UPLOADS, None, b"abc", 202),
    ("t1", Verb::Patch, SESSION, None, b"ab", 202),
    ("t1", Verb::Patch, SESSION, None, b"12345", 403),
    ("t1", Verb::Put, MANIFEST, None, b"{}", 503),
    ("t1", Verb::Put, SESSION, Some(WIDE), b"c", 201),
];

/// A request whose body is staged is answered as one of those bytes, but for a manifest.
#[test]
fn staged_requests_are_answered(rt: HostRuntime) {
    let alloc = rt.alloc();
    let mut registry = registry_with(&rt, alloc, 9);
    for (token, method, route, digest, bytes, status) in ROWS.iter() {
        let mut holder = registry.into_keeper();
        holder.stage(7, 0, false).expect(&rt, "a stage");
        holder.stage_more(7, bytes).expect(&rt, "its bytes");
        registry = Service::new(holder);
        let asked = request(token, *method, *route, *digest);
        let (key, size) = (7, bytes.len());
        let reply = registry.handle_with(alloc, &asked, StagedBody { key, size });
        assert_eq!(&rt; reply.status.code(), *status);
    }
}

/// What is answered where three bytes came and were let fall.
static COUNTED: [Row; 5] = [
    ("t1", Verb::Post, UPLOADS, Some(ABC), b"", 503),
    ("t1", Verb::Post, UPLOADS, None, b"", 202),
    ("t1", Verb::Put, UPLOADS, Some(ABC), b"", 405),
    ("t2", Verb::Post, UPLOADS, Some(ABC), b"", 403),
    ("t3", Verb::Post, UPLOADS, Some(ABC), b"", 401),
];

/// A request whose body was let fall is answered where the reply does not take its bytes.
#[test]
fn counted_requests_are_answered(rt: HostRuntime) {
    let alloc = rt.alloc();
    let mut registry = registry_with(&rt, alloc, 9);
    for (token, method, route, digest, _, status) in COUNTED.iter() {
        let asked = request(token, *method, *route, *digest);
        let reply = registry.handle_with(alloc, &asked, CountedBody(3));
        assert_eq!(&rt; reply.status.code(), *status);
    }
}
