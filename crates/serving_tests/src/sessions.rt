//! The numbers of upload sessions.

use crate::setting::{Registry, is_told, setting};
use crate::texts::CREATED;
use oci_types::RepoName;
use registry_holding::Holding;
use registry_service::Service;
use std::alloc::Global;
use std::process::Abort;

/// The largest number of a session.
const LARGEST: u64 = 9_223_372_036_854_775_807;

/// The sha256 digest of no bytes.
const EMPTY: &str = "sha256:e3b0c44298fc1c149afbf4c8996fb92427ae41e4649b934ca495991b7852b855";

const OPEN: &str = "POST /v2/{name}/blobs/uploads/ HTTP/1.1\r\nHost: r\r\n\
      Authorization: Bearer t1\r\nContent-Length: 0\r\n\r\n";

const OPENED: &str = "HTTP/1.1 202 Accepted\r\nContent-Length: 0\r\n\
      Location: /v2/team/app/blobs/uploads/9223372036854775807\r\nRange: 0-0\r\n\r\n";

const OPEN_BESIDE: &str = "POST /v2/team/lib/blobs/uploads/ HTTP/1.1\r\nHost: r\r\n\
      Authorization: Bearer t1\r\nContent-Length: 0\r\n\r\n";

const OPENED_BESIDE: &str = "HTTP/1.1 202 Accepted\r\nContent-Length: 0\r\n\
      Location: /v2/team/lib/blobs/uploads/1\r\nRange: 0-0\r\n\r\n";

const TOO_MANY: &str =
    "HTTP/1.1 429 Too Many Requests\r\nContent-Length: 68\r\nContent-Type: application/json\r\n\r\n\
      {\"errors\":[{\"code\":\"TOOMANYREQUESTS\",\"message\":\"too many uploads\"}]}";

const CLOSE: &str =
    "PUT /v2/{name}/blobs/uploads/9223372036854775807?digest={digest} HTTP/1.1\r\nHost: r\r\n\
      Authorization: Bearer t1\r\nContent-Length: 0\r\n\r\n";

/// The setting, where all numbers of `team/app` but one were given: no number of requests leads there.
fn all_but_one(rt: &impl Abort, alloc: Global) -> Registry {
    let name = RepoName::parse(alloc, "team/app").expect(rt, "a name");
    let mut keeper = setting(rt, alloc).into_keeper().into_keeper();
    keeper.set_last_number(&name, LARGEST - 1);
    Service::new(Holding::new(alloc, keeper))
}

/// What is asked, one after the other, and the reply to each.
static ASKED: [(&str, &str); 5] = [
    (OPEN, OPENED),
    (OPEN, TOO_MANY),
    (CLOSE, CREATED),
    (OPEN, TOO_MANY),
    (OPEN_BESIDE, OPENED_BESIDE),
];

/// The largest number is given to one session, and none opens behind it, whatever has ended.
#[test]
fn session_numbers_are_used_up(rt: HostRuntime) {
    let alloc = rt.alloc();
    let mut registry = all_but_one(&rt, alloc);
    for (request, reply) in ASKED.iter() {
        is_told(&rt, alloc, &mut registry, EMPTY, request, reply);
    }
}
