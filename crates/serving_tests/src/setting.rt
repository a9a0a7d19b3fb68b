//! What the tests share: registries over ordered maps, who asks them, and a comparison. What fails where it
//! is to succeed ends the test.

use crate::texts::filled;
use oci_types::{RepoName, Token};
use registry_holding::Holding;
use registry_http::End;
use registry_maps::MapKeeper;
use registry_model::{AdminCommand, Keeper, Level, Quota, Settings};
use registry_server::serve_connection;
use registry_service::Service;
use std::alloc::Global;
use std::fmt::Debug;
use std::io::{Read, Write};
use std::process::Abort;

/// A registry that forgets all when it ends.
pub type Registry = Service<Holding<MapKeeper>>;

/// Both are the same: what a comparison prints where it fails is proved here, and not at each.
pub fn same<T: PartialEq + Debug + Drop>(rt: &impl Abort, place: usize, found: T, wanted: T) {
    assert_eq!(rt; found, wanted, "at {place}");
}

/// A registry of no repositories and no grants.
pub fn empty(alloc: Global) -> Registry {
    Service::new(Holding::new(alloc, MapKeeper::new(alloc)))
}

/// Carries a command out.
fn command(rt: &impl Abort, alloc: Global, registry: &mut Registry, command: AdminCommand) {
    registry.admin(alloc, &command).expect(rt, "a change");
}

/// Makes a repository.
pub fn add(rt: &impl Abort, alloc: Global, registry: &mut Registry, name: &str, quota: u64) {
    let name = &RepoName::parse(alloc, name).expect(rt, "a name");
    let quota = Quota::new(quota).expect(rt, "a quota");
    command(rt, alloc, registry, AdminCommand::AddRepo { name, quota });
}

/// Gives a token a level.
pub fn grant(
    rt: &impl Abort,
    alloc: Global,
    registry: &mut Registry,
    token: &str,
    name: &str,
    level: Level,
) {
    let token = &Token::parse(alloc, token).expect(rt, "a token");
    let name = &RepoName::parse(alloc, name).expect(rt, "a name");
    command(
        rt,
        alloc,
        registry,
        AdminCommand::Grant { token, name, level },
    );
}

/// The repositories of the setting.
static NAMES: [&str; 3] = ["team/app", "team/lib", "other"];

/// The tokens of the setting, and their levels.
static GRANTS: [(&str, &str, Level); 3] = [
    ("t1", "team/app", Level::Delete),
    ("t1", "team/lib", Level::Delete),
    ("t2", "other", Level::Push),
];

/// Repositories of quota 1,000, and the levels on them.
pub fn setting(rt: &impl Abort, alloc: Global) -> Registry {
    let mut registry = empty(alloc);
    for name in NAMES.iter() {
        add(rt, alloc, &mut registry, name, 1000);
    }
    for (token, name, level) in GRANTS.iter() {
        grant(rt, alloc, &mut registry, token, name, *level);
    }
    registry
}

/// Serves a connection. Nothing of its contract is told to the tests, which need none of it.
pub fn connect<R: Read, W: Write, K: Keeper>(
    alloc: Global,
    registry: &mut Service<K>,
    reader: &mut R,
    writer: &mut W,
) -> End {
    serve_connection(alloc, registry, Settings::profile(), reader, writer)
}

/// A connection of these reads ends so, and this is answered.
pub fn is_answered<R: Read, K: Keeper>(
    rt: &impl Abort,
    alloc: Global,
    registry: &mut Service<K>,
    place: usize,
    reader: &mut R,
    end: End,
    output: &[u8],
) {
    let mut written = Vec::new(alloc);
    let found = connect(alloc, registry, reader, &mut written);
    same(rt, place, found, end);
    same(rt, place, written.as_slice(), output);
}

/// A request on `team/app` with this digest is answered by this.
pub fn is_told<K: Keeper>(
    rt: &impl Abort,
    alloc: Global,
    registry: &mut Service<K>,
    digest: &str,
    request: &str,
    reply: &str,
) {
    let input = filled(rt, alloc, request, "team/app", digest, "");
    let output = filled(rt, alloc, reply, "team/app", digest, "abc");
    let (mut reader, end) = (input.as_bytes(), End::Closed);
    is_answered(rt, alloc, registry, 0, &mut reader, end, output.as_bytes());
}
