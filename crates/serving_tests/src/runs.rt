//! Runs: what a team is told, whatever others do in between.

use crate::setting::{grant, same, setting};
use crate::texts::{ABC, BLOB_UNKNOWN, CREATED, DELETED, FOUND, HELLO, filled};
use oci_types::{RepoName, Token};
use registry_http::reply_text::body_bytes;
use registry_http::write_head;
use registry_model::{
    AdminCommand, Body, Level, Query, Quota, Reply, Request, Resource, Route, Settings, Verb,
};
use registry_service::{Outcome, Step};
use std::alloc::Global;
use std::process::Abort;

const DENIED: &str =
    "HTTP/1.1 403 Forbidden\r\nContent-Length: 56\r\nContent-Type: application/json\r\n\r\n\
      {\"errors\":[{\"code\":\"DENIED\",\"message\":\"access denied\"}]}";

/// What is asked.
#[derive(Clone, Copy)]
enum Asked<'a> {
    /// A push of these bytes.
    Push(&'a [u8]),
    /// A request on a blob.
    Blob(Verb),
    /// Makes the repository `third`.
    Add,
    /// Gives `t2` a level on it.
    Grant,
    Clear,
}

/// What is asked under a token, on a repository with a digest, and what is told: the reply, or why a command
/// was not carried out; nothing where it was.
type Row = (
    Asked<'static>,
    &'static str,
    &'static str,
    &'static str,
    &'static str,
);

/// What `t1` is told, alone.
static ALONE: [Row; 4] = [
    (Asked::Push(b"abc"), "t1", "team/app", ABC, CREATED),
    (
        Asked::Blob(Verb::Get),
        "t1",
        "team/app",
        HELLO,
        BLOB_UNKNOWN,
    ),
    (Asked::Blob(Verb::Get), "t1", "other", HELLO, DENIED),
    (Asked::Blob(Verb::Get), "t1", "team/app", ABC, FOUND),
];

/// The same, and what `t2` and the administrator do elsewhere in between, who makes the repository `third`,
/// gives `t2` a level on it and wants to make it again.
static AMONG_OTHERS: [Row; 10] = [
    (Asked::Push(b"hello"), "t2", "other", HELLO, CREATED),
    (Asked::Push(b"abc"), "t1", "team/app", ABC, CREATED),
    (Asked::Push(b"hello"), "t2", "team/app", HELLO, DENIED),
    (
        Asked::Blob(Verb::Get),
        "t1",
        "team/app",
        HELLO,
        BLOB_UNKNOWN,
    ),
    (Asked::Add, "", "", "", ""),
    (Asked::Grant, "", "", "", ""),
    (Asked::Blob(Verb::Get), "t1", "other", HELLO, DENIED),
    (Asked::Push(b"hello"), "t2", "third", HELLO, CREATED),
    (Asked::Blob(Verb::Get), "t1", "team/app", ABC, FOUND),
    (Asked::Add, "", "", "", "RepoThere"),
];

/// To the two tokens of a repository it is one: what one of them deletes the other does not find.
static TEAM: [Row; 3] = [
    (Asked::Push(b"abc"), "t3", "team/app", ABC, CREATED),
    (Asked::Blob(Verb::Delete), "t1", "team/app", ABC, DELETED),
    (Asked::Blob(Verb::Get), "t3", "team/app", ABC, BLOB_UNKNOWN),
];

/// Another's push of the same bytes and the administrator's clearing change none of their replies.
static TEAM_AMONG_OTHERS: [Row; 6] = [
    (Asked::Push(b"abc"), "t3", "team/app", ABC, CREATED),
    (Asked::Push(b"abc"), "t2", "other", ABC, CREATED),
    (Asked::Clear, "", "", "", ""),
    (Asked::Blob(Verb::Delete), "t1", "team/app", ABC, DELETED),
    (Asked::Clear, "", "", "", ""),
    (Asked::Blob(Verb::Get), "t3", "team/app", ABC, BLOB_UNKNOWN),
];

/// A request without a query but for a digest to push.
fn request<'a>(
    token: &'a str,
    method: Verb,
    route: Route<'a>,
    digest: Option<&'a str>,
    body: &'a [u8],
) -> Step<'a> {
    Step::Request(Request {
        settings: Settings::profile(),
        resource: Resource::Registry,
        host: None,
        basic: None,
        token: Some(token),
        method,
        route,
        query: Query {
            digest,
            mount: None,
            from: None,
            n: None,
            last: None,
            artifact_type: None,
        },
        content_type: None,
        content_range: None,
        body,
    })
}

/// The steps of a run, of which the administrator's speak of this repository and this token.
fn steps<'a>(
    rt: &impl Abort,
    alloc: Global,
    rows: &'a [Row],
    name: &'a RepoName,
    token: &'a Token,
) -> Vec<Step<'a>> {
    let quota = Quota::new(7).expect(rt, "a quota");
    let level = Level::Delete;
    let mut steps = Vec::new(alloc);
    for (asked, who, on, digest, _) in rows.iter() {
        let step = match asked {
            Asked::Push(body) => {
                let route = Route::Uploads { name: on };
                request(who, Verb::Post, route, Some(digest), body)
            }
            Asked::Blob(method) => {
                request(who, *method, Route::Blob { name: on, digest }, None, b"")
            }
            Asked::Add => Step::Admin(AdminCommand::AddRepo { name, quota }),
            Asked::Grant => Step::Admin(AdminCommand::Grant { token, name, level }),
            Asked::Clear => Step::Admin(AdminCommand::Clear),
        };
        steps.push(step).expect(rt, "memory");
    }
    steps
}

/// What comes of the steps in the setting, in which `t3` has level 2 on `team/app` too.
fn outcomes(rt: &impl Abort, alloc: Global, steps: &[Step]) -> Vec<Outcome> {
    let mut registry = setting(rt, alloc);
    grant(rt, alloc, &mut registry, "t3", "team/app", Level::Push);
    registry.run(alloc, steps).expect(rt, "outcomes")
}

/// The text of a reply to GET.
pub fn reply_text(rt: &impl Abort, alloc: Global, reply: &Reply) -> Vec<u8> {
    let mut text = Vec::new(alloc);
    assert!(rt; !matches!(reply.body, Body::Unsent(_)));
    assert!(rt; write_head(reply, false, &mut text).is_ok());
    text.extend_from_slice(body_bytes(&reply.body))
        .expect(rt, "memory");
    text
}

/// The text of an outcome: of its reply, or of why a command was not carried out; empty where it was.
fn outcome_text(rt: &impl Abort, alloc: Global, outcome: &Outcome) -> Vec<u8> {
    match outcome {
        Outcome::Reply(reply) => reply_text(rt, alloc, reply),
        Outcome::Admin(Ok(())) => Vec::new(alloc),
        Outcome::Admin(Err(fault)) => format!(in alloc; "{fault:?}")
            .expect(rt, "memory")
            .into_bytes(),
    }
}

/// This is told of an outcome. All that is found is `abc`.
fn is_told(rt: &impl Abort, alloc: Global, place: usize, outcome: &Outcome, row: &Row) {
    let (_, _, name, digest, told) = row;
    let told = filled(rt, alloc, told, name, digest, "abc");
    let text = outcome_text(rt, alloc, outcome);
    same(rt, place, text.as_slice(), told.as_bytes());
}

/// All that is asked is told as it is to be.
fn is_run(rt: &impl Abort, alloc: Global, rows: &[Row]) {
    let name = RepoName::parse(alloc, "third").expect(rt, "a name");
    let token = Token::parse(alloc, "t2").expect(rt, "a token");
    let steps = steps(rt, alloc, rows, &name, &token);
    let outcomes = outcomes(rt, alloc, steps.as_slice());
    same(rt, 0, outcomes.len(), rows.len());
    for (place, (outcome, row)) in outcomes.iter().zip(rows.iter()).enumerate() {
        is_told(rt, alloc, place, outcome, row);
    }
}

/// To `t1` the replies are the same, alone and among others.
#[test]
fn a_team_is_told_the_same(rt: HostRuntime) {
    is_run(&rt, rt.alloc(), ALONE.as_slice());
    is_run(&rt, rt.alloc(), AMONG_OTHERS.as_slice());
}

#[test]
fn two_tokens_are_told_the_same(rt: HostRuntime) {
    is_run(&rt, rt.alloc(), TEAM.as_slice());
    is_run(&rt, rt.alloc(), TEAM_AMONG_OTHERS.as_slice());
}
