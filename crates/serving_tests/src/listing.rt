//! Lists of what a registry holds, over ordered maps. What they show is in the order of bytes.

use crate::setting::{Registry, grant, is_told, same, setting};
use order_carrying::answer_line;
use registry_model::Level;
use std::alloc::Global;
use std::process::Abort;
use std::str;

/// The sha256 digest of the index that is pushed (`printf .. | sha256sum`).
const INDEX: &str = "sha256:dff9de10919148711140d349bf03f1a99eb06f94b03e51715ccebfa7cdc518e2";

/// An index of nothing, under the tags `v2` and `v10`.
static PUSHES: [&str; 2] = [
    "PUT /v2/{name}/manifests/v2 HTTP/1.1\r\nHost: r\r\nAuthorization: Bearer t1\r\n\
      Content-Length: 88\r\n\r\n\
      {\"schemaVersion\":2,\"mediaType\":\"application/vnd.oci.image.index.v1+json\",\"manifests\":[]}",
    "PUT /v2/{name}/manifests/v10 HTTP/1.1\r\nHost: r\r\nAuthorization: Bearer t1\r\n\
      Content-Length: 88\r\n\r\n\
      {\"schemaVersion\":2,\"mediaType\":\"application/vnd.oci.image.index.v1+json\",\"manifests\":[]}",
];

const PUSHED: &str =
    "HTTP/1.1 201 Created\r\nContent-Length: 0\r\nDocker-Content-Digest: {digest}\r\n\
      Location: /v2/{name}/manifests/{digest}\r\n\r\n";

/// Lists, and the answer to each: no upload and no blob is there.
static LISTS: [(&str, &str); 8] = [
    ("list lines repos", "0\nother\nteam/app\nteam/lib\n"),
    (
        "list lines grants whole * *",
        "0\nother t2 2\nteam/app t1 3\nteam/lib a1 1\nteam/lib t1 3\n",
    ),
    (
        "list lines grants whole * t1",
        "0\nteam/app t1 3\nteam/lib t1 3\n",
    ),
    (
        "list lines grants whole team/lib *",
        "0\nteam/lib a1 1\nteam/lib t1 3\n",
    ),
    (
        "list lines tags team/app",
        "0\nv10 sha256:dff9de10919148711140d349bf03f1a99eb06f94b03e51715ccebfa7cdc518e2\n\
         v2 sha256:dff9de10919148711140d349bf03f1a99eb06f94b03e51715ccebfa7cdc518e2\n",
    ),
    ("list lines tags team/lib", "0\n"),
    (
        "list lines tags team/other",
        "1\nregistry: no such repository\n",
    ),
    ("list lines blobs team/app", "0\n"),
];

/// The repositories of the setting, where one more token has a level and two tags are set.
fn with_tags(rt: &impl Abort, alloc: Global) -> Registry {
    let mut registry = setting(rt, alloc);
    grant(rt, alloc, &mut registry, "a1", "team/lib", Level::Pull);
    for push in PUSHES.iter() {
        is_told(rt, alloc, &mut registry, INDEX, push, PUSHED);
    }
    registry
}

#[test]
fn lists_are_in_the_order_of_bytes(rt: HostRuntime) {
    let alloc = rt.alloc();
    let mut registry = with_tags(&rt, alloc);
    for (place, (line, wanted)) in LISTS.iter().enumerate() {
        let answer = answer_line(alloc, &mut registry, line.as_bytes()).expect(&rt, "memory");
        same(&rt, place, str::from_utf8(&answer), Ok(*wanted));
    }
}
