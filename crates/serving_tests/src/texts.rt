//! Requests and replies. They are those of RFC 9112 and of the worked examples. Words in braces stand for
//! what `filled` puts there.

use std::alloc::Global;
use std::process::Abort;

/// The sha256 digests of `abc` and of `hello` (FIPS 180-4; `printf hello | sha256sum`).
pub const ABC: &str = "sha256:ba7816bf8f01cfea414140de5dae2223b00361a396177a9cb410ff61f20015ad";

pub const HELLO: &str = "sha256:2cf24dba5fb0a30e26e83b2ac5b9e29e1b161e5c1fa7425e73043362938b9824";

/// A push of `t1`, with these fields and this body.
pub const PUSH: &str = "POST /v2/{name}/blobs/uploads/?digest={digest} HTTP/1.1\r\nHost: r\r\n\
      Authorization: Bearer t1\r\n{body}";

/// The reply to a push that was taken.
pub const CREATED: &str =
    "HTTP/1.1 201 Created\r\nContent-Length: 0\r\nDocker-Content-Digest: {digest}\r\n\
      Location: /v2/{name}/blobs/{digest}\r\n\r\n";

pub const GET: &str = "GET /v2/{name}/blobs/{digest} HTTP/1.1\r\nHost: r\r\n\
      Authorization: Bearer t1\r\n\r\n";

/// The reply to the fetch of a blob.
pub const FOUND: &str =
    "HTTP/1.1 200 OK\r\nContent-Length: {length}\r\nContent-Type: application/octet-stream\r\n\
      Docker-Content-Digest: {digest}\r\n\r\n{body}";

/// A push, an empty line, a fetch, and a HEAD that closes the connection, with bytes behind it.
pub const THREE_REQUESTS: &str =
    "POST /v2/{name}/blobs/uploads/?digest={digest} HTTP/1.1\r\nHost: r\r\n\
      Authorization: Bearer t1\r\n{body}\r\n\
      GET /v2/{name}/blobs/{digest} HTTP/1.1\r\nHost: r\r\nAuthorization: Bearer t1\r\n\r\n\
      HEAD /v2/{name}/blobs/{digest} HTTP/1.1\r\nHost: r\r\nAuthorization: Bearer t1\r\n\
      Connection: close\r\n\r\nGET /";

/// The replies to them.
pub const THREE_REPLIES: &str =
    "HTTP/1.1 201 Created\r\nContent-Length: 0\r\nDocker-Content-Digest: {digest}\r\n\
      Location: /v2/{name}/blobs/{digest}\r\n\r\n\
      HTTP/1.1 200 OK\r\nContent-Length: {length}\r\nContent-Type: application/octet-stream\r\n\
      Docker-Content-Digest: {digest}\r\n\r\n{body}\
      HTTP/1.1 200 OK\r\nContent-Length: {length}\r\nContent-Type: application/octet-stream\r\n\
      Docker-Content-Digest: {digest}\r\nConnection: close\r\n\r\n";

/// A whole request.
pub const SMALL: &[u8] = b"GET /v2/ HTTP/1.1\r\nHost: r\r\n\r\n";

/// The reply to it, 215 bytes.
pub const TOKEN_REQUIRED: &str =
    "HTTP/1.1 401 Unauthorized\r\nContent-Length: 63\r\nContent-Type: application/json\r\n\
      WWW-Authenticate: Bearer realm=\"registry\"\r\n\r\n\
      {\"errors\":[{\"code\":\"UNAUTHORIZED\",\"message\":\"token required\"}]}";

/// The head of a request whose body is longer than a connection's share.
pub const LARGE_HEAD: &[u8] = b"PUT /v2/team/app/manifests/v1 HTTP/1.1\r\nHost: r\r\n\
      Authorization: Bearer t1\r\nContent-Length: 1000000\r\n\r\n";

/// The body `hello` in chunks, with an extension and a trailer, of a client that waits.
pub const IN_CHUNKS: &str = "Expect: 100-continue\r\nTransfer-Encoding: chunked\r\n\r\n\
      2;a=b\r\nhe\r\n03\r\nllo\r\n0\r\nX: y\r\n\r\n";

pub const CONTINUE: &str = "HTTP/1.1 100 Continue\r\n\r\n";

pub const DELETE: &str = "DELETE /v2/{name}/blobs/{digest} HTTP/1.1\r\nHost: r\r\n\
      Authorization: Bearer t1\r\n\r\n";

/// The reply to a deletion.
pub const DELETED: &str = "HTTP/1.1 202 Accepted\r\nContent-Length: 0\r\n\r\n";

/// What is written where bytes spell no request.
pub const BAD_REQUEST: &str =
    "HTTP/1.1 400 Bad Request\r\nContent-Length: 0\r\nConnection: close\r\n\r\n";

/// The reply to the fetch of a blob that is not there.
pub const BLOB_UNKNOWN: &str =
    "HTTP/1.1 404 Not Found\r\nContent-Length: 61\r\nContent-Type: application/json\r\n\r\n\
      {\"errors\":[{\"code\":\"BLOB_UNKNOWN\",\"message\":\"blob unknown\"}]}";

/// A text with its words filled in: the name of a repository, a digest, a body, and the body's length. Of a
/// request the body is what stands behind the fields of all requests.
pub fn filled(
    rt: &impl Abort,
    alloc: Global,
    text: &str,
    name: &str,
    digest: &str,
    body: &str,
) -> String {
    let length = body.len();
    let length = format!(in alloc; "{length}").expect(rt, "memory");
    let named = text.replace(alloc, "{name}", name).expect(rt, "memory");
    let named = named
        .replace(alloc, "{digest}", digest)
        .expect(rt, "memory");
    let named = named
        .replace(alloc, "{length}", length.as_str())
        .expect(rt, "memory");
    named.replace(alloc, "{body}", body).expect(rt, "memory")
}
