//! Lines by hand, over a registry in memory. The answers are what the commands print by the definitions.

use crate::setting::{Registry, empty, same};
use oci_types::{RepoName, Token};
use order_carrying::answer_line;
use order_texts::{STOP, Unread, is_stop, read_answer, read_order, write_order, write_stopping};
use registry_model::Level;
use registry_orders::{Change, Form, Listing, Order, Shown};
use std::alloc::Global;
use std::process::Abort;
use std::str;

const DONE: &str = "0\n";

const THERE: &str = "1\nregistry: repository already there\n";

const NO_REPO: &str = "1\nregistry: no such repository\n";

const NO_GRANT: &str = "1\nregistry: no such grant\n";

const MALFORMED: &str = "2\nregistry: invalid options\n";

const NO_ROWS: &str =
    "0\n                used               quota     blobs manifests      tags  sessions name\n";

const ONE_ROW: &str =
    "0\n                used               quota     blobs manifests      tags  sessions name\n\
     \x20                  0                2000         0         0         0         0 team/app\n";

const NO_LEVELS: &str = "0\n[]\n";

const LEVEL: &str = "0\nteam/app t1... 3\n";

const LEVEL_WHOLE: &str = "0\nteam/app t1 3\n";

const LEVEL_JSON: &str = "0\n[{\"level\":3,\"name\":\"team/app\",\"token\":\"t1...\"}]\n";

/// Lines, one after the other, and the answer to each.
static TALK: [(&str, &str); 33] = [
    ("usage", NO_ROWS),
    ("drop team/app", NO_REPO),
    ("repo team/app 1000", DONE),
    ("repo team/app 1", THERE),
    ("quota team/app 2000", DONE),
    ("quota team/other 2000", NO_REPO),
    ("usage", ONE_ROW),
    ("grant team/app 3 t1", DONE),
    ("grant team/other 3 t1", NO_REPO),
    ("list lines grants beginning * *", LEVEL),
    ("list lines grants whole * *", LEVEL_WHOLE),
    ("list lines grants whole team/app *", LEVEL_WHOLE),
    ("list lines grants beginning * t1", LEVEL),
    ("list json grants beginning team/app t1", LEVEL_JSON),
    ("list lines grants whole * t2", DONE),
    ("list json grants whole * t2", NO_LEVELS),
    ("list lines grants whole team/other *", NO_REPO),
    ("list json grants beginning team/other t1", NO_REPO),
    ("revoke t2", NO_GRANT),
    ("revoke team/app t2", NO_GRANT),
    ("revoke team/app t1", DONE),
    ("revoke team/app t1", NO_GRANT),
    ("revoke t1", NO_GRANT),
    ("grant team/app 3 t1", DONE),
    ("revoke t1", DONE),
    ("revoke t1", NO_GRANT),
    ("list lines grants whole * *", DONE),
    ("sessions team/app", DONE),
    ("prune team/app", DONE),
    ("prune team/other", NO_REPO),
    ("clear", DONE),
    ("drop team/app", DONE),
    ("usage", NO_ROWS),
];

/// Lines that spell no order.
static MALFORMED_LINES: [&[u8]; 41] = [
    b"",
    b" ",
    b"usage ",
    b" usage",
    b"usage\n",
    b"usages",
    b"USAGE",
    b"clear all",
    b"drop",
    b"drop ",
    b"drop  team/app",
    b"drop team/app ",
    b"drop team/app team/app",
    b"drop team/App",
    b"drop team/app\0",
    b"drop team/\xff",
    b"prune",
    b"prune team/app team/app",
    b"quota team/app 01",
    b"quota team/app +1",
    b"quota team/app -1",
    b"quota team/app 9223372036854775808",
    b"grant team/app 4 t1",
    b"grant team/app 03 t1",
    b"grant team/app 3 t 1",
    b"revoke team/app =",
    b"revoke team/app *",
    b"revoke",
    b"revoke ",
    b"revoke =",
    b"revoke *",
    b"list lines grants",
    b"list lines grants whole",
    b"list lines grants whole *",
    b"list lines grants * *",
    b"list lines grants whole * * *",
    b"list lines grants all * *",
    b"list text grants whole * *",
    b"list lines grants whole team/App *",
    b"list lines grants whole * =",
    b"list lines grants whole * ",
];

/// A line is answered by this.
fn is_answered(
    rt: &impl Abort,
    alloc: Global,
    registry: &mut Registry,
    place: usize,
    line: &[u8],
    wanted: &str,
) {
    let answer = answer_line(alloc, registry, line).expect(rt, "memory");
    same(rt, place, str::from_utf8(&answer), Ok(wanted));
}

/// An order has this line.
fn is_written(rt: &impl Abort, alloc: Global, place: usize, order: Order, line: &str) {
    let written = write_order(alloc, &order).expect(rt, "memory");
    same(rt, place, written.as_str(), line);
}

/// A line spells no order.
fn is_malformed(rt: &impl Abort, alloc: Global, place: usize, line: &[u8]) {
    let unread = read_order(alloc, line).map(|_| ()).err();
    same(rt, place, unread, Some(Unread::Malformed));
}

#[test]
fn each_line_is_answered_and_written_again(rt: HostRuntime) {
    let alloc = rt.alloc();
    let mut registry = empty(alloc);
    for (place, (line, wanted)) in TALK.iter().enumerate() {
        is_answered(&rt, alloc, &mut registry, place, line.as_bytes(), wanted);
        let order = read_order(alloc, line.as_bytes()).expect(&rt, "an order");
        is_written(&rt, alloc, place, order, line);
    }
}

#[test]
fn malformed_lines_change_nothing(rt: HostRuntime) {
    let alloc = rt.alloc();
    let mut registry = empty(alloc);
    is_answered(&rt, alloc, &mut registry, 0, b"repo team/app 2000", DONE);
    for (place, line) in MALFORMED_LINES.iter().enumerate() {
        is_malformed(&rt, alloc, place, line);
        is_answered(&rt, alloc, &mut registry, place, line, MALFORMED);
        is_answered(&rt, alloc, &mut registry, place, b"usage", ONE_ROW);
    }
}

fn app(rt: &impl Abort, alloc: Global) -> RepoName {
    RepoName::parse(alloc, "team/app").expect(rt, "a name")
}

fn t1(rt: &impl Abort, alloc: Global) -> Token {
    Token::parse(alloc, "t1").expect(rt, "a token")
}

#[test]
fn changes_are_written(rt: HostRuntime) {
    let alloc = rt.alloc();
    let (token, name, level) = (t1(&rt, alloc), app(&rt, alloc), Level::Push);
    let grant = Order::Change(Change::Grant { token, name, level });
    is_written(&rt, alloc, 0, grant, "grant team/app 2 t1");
    let token = t1(&rt, alloc);
    let revoke = Order::Change(Change::RevokeAll { token });
    is_written(&rt, alloc, 1, revoke, "revoke t1");
}

/// An asterisk stands where no repository, or no token, is named.
#[test]
fn lists_of_levels_are_written(rt: HostRuntime) {
    let alloc = rt.alloc();
    let (name, token, shown) = (None, Some(t1(&rt, alloc)), Shown::Beginning);
    let listing = Listing::Grants { name, token, shown };
    let of_token = Order::List {
        listing,
        form: Form::Lines,
    };
    is_written(&rt, alloc, 0, of_token, "list lines grants beginning * t1");
    let (name, token, shown) = (Some(app(&rt, alloc)), None, Shown::Whole);
    let listing = Listing::Grants { name, token, shown };
    let on_name = Order::List {
        listing,
        form: Form::Json,
    };
    is_written(&rt, alloc, 1, on_name, "list json grants whole team/app *");
}

/// Bytes, and the status and the text of the answer that they are.
static ANSWERS: [(&[u8], Option<(u8, &[u8])>); 8] = [
    (
        b"1\nregistry: no such repository\n",
        Some((1, b"registry: no such repository\n")),
    ),
    (b"0\n", Some((0, b""))),
    (b"", None),
    (b"0", None),
    (b"\n", None),
    (b"5\n", None),
    (b"00\n", None),
    (b" 0\n", None),
];

#[test]
fn answers_are_read(rt: HostRuntime) {
    for (place, (bytes, wanted)) in ANSWERS.iter().enumerate() {
        let answer = match read_answer(bytes) {
            Some(answer) => Some((answer.status, answer.text)),
            None => None,
        };
        same(&rt, place, answer, *wanted);
    }
}

/// Lines that do not ask a server to stop.
static NO_STOPS: [&[u8]; 7] = [
    b"", b"sto", b"stops", b"stop ", b" stop", b"STOP", b"stop\n",
];

/// The line that asks a server to stop, and none beside it; it is no order, and is answered that it is done.
#[test]
fn one_line_asks_to_stop(rt: HostRuntime) {
    let alloc = rt.alloc();
    same(&rt, 0, is_stop(STOP.as_bytes()), true);
    for (place, line) in NO_STOPS.iter().enumerate() {
        same(&rt, place, is_stop(line), false);
    }
    is_malformed(&rt, alloc, 0, STOP.as_bytes());
    let answer = write_stopping(alloc).expect(&rt, "memory");
    same(&rt, 1, answer.as_slice(), DONE.as_bytes());
}
