//! What an administrator does while a large body comes: the request is answered by what is so when its body
//! is whole.

use crate::receiving::{Framing, LARGE, PUSH, begin, come_in, is_told, new_talk};
use crate::requests::Registry;
use oci_types::{RepoName, Token};
use registry_conversation::Step;
use registry_model::{AdminCommand, Level, Quota};
use std::alloc::Global;
use std::process::Abort;

/// What is done to the repository, or to the level of `t1` on it.
#[derive(Clone, Copy)]
enum Meanwhile {
    Quota(u64),
    Level(Level),
    Revoked,
    Dropped,
}

/// It is done.
fn administer(rt: &impl Abort, alloc: Global, registry: &mut Registry, meanwhile: Meanwhile) {
    let name = &RepoName::parse(alloc, "team/app").expect(rt, "a name");
    let token = &Token::parse(alloc, "t1").expect(rt, "a token");
    let done = match meanwhile {
        Meanwhile::Quota(bytes) => {
            let quota = Quota::new(bytes).expect(rt, "a quota");
            registry.admin(alloc, &AdminCommand::SetQuota { name, quota })
        }
        Meanwhile::Level(level) => {
            registry.admin(alloc, &AdminCommand::Grant { token, name, level })
        }
        Meanwhile::Revoked => registry.admin(alloc, &AdminCommand::Revoke { token, name }),
        Meanwhile::Dropped => registry.admin(alloc, &AdminCommand::DropRepo { name }),
    };
    done.expect(rt, "an order that is done");
}

/// One after the other, each on what those before left, and how the push is answered.
static ROWS: [(Meanwhile, &str); 7] = [
    (Meanwhile::Quota(1), "HTTP/1.1 403 "),
    (Meanwhile::Quota(1_000_000), "HTTP/1.1 201 "),
    (Meanwhile::Level(Level::Pull), "HTTP/1.1 403 "),
    (Meanwhile::Level(Level::Push), "HTTP/1.1 201 "),
    (Meanwhile::Revoked, "HTTP/1.1 401 "),
    (Meanwhile::Level(Level::Push), "HTTP/1.1 201 "),
    (Meanwhile::Dropped, "HTTP/1.1 401 "),
];

/// A push of a large blob is answered by what is so when it is whole.
#[test]
fn a_push_is_answered_by_what_is_so_in_the_end(rt: HostRuntime) {
    let alloc = rt.alloc();
    let talk = &mut new_talk(&rt, alloc);
    let framing = Framing::ByLength;
    for (meanwhile, start) in ROWS.iter() {
        begin(alloc, talk, PUSH, LARGE, framing);
        let _ = come_in(&rt, alloc, talk, framing, 100);
        assert!(&rt; talk.receiver.has_stage());
        administer(&rt, alloc, &mut talk.registry, *meanwhile);
        let last = come_in(&rt, alloc, talk, framing, 100);
        assert!(&rt; matches!(last, Step::Answered));
        assert!(&rt; !talk.receiver.has_stage());
        is_told(&rt, talk, start);
    }
}
