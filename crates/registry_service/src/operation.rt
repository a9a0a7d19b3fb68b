ghost use Rattle.std.specs.Prelude.{◌≡◌, nat_le, option_map};
ghost use Rattle.registry_model.specs.Form.{form_of};
ghost use Rattle.registry_model.specs.Ask.{ask_of, keys_of, text_in};
ghost use Rattle.registry_model.specs.Operation.{on_blob, post_by, on_uploads, on_session, on_manifest, on_tags, on_referrers, operation_of, allow_of, needed_level, rank, rank_of};
ghost use Rattle.registry_service.specs.Operations.{shown_operation};

use registry_model::{Level, Query, Request, Route, Verb};

/// What a request asks of the repository of its path.
#[derive(Clone, Copy)]
pub enum Operation<'a> {
    ReadBlob(&'a str),
    SizeBlob(&'a str),
    DeleteBlob(&'a str),
    PushBlob(&'a str),
    OpenSession,
    MountBlob {
        digest: &'a str,
        source: Option<&'a str>,
    },
    ReadSession(&'a str),
    AppendChunk {
        reference: &'a str,
        range: Option<&'a [u8]>,
    },
    CloseSession {
        reference: &'a str,
        digest: Option<&'a str>,
        range: Option<&'a [u8]>,
    },
    ReadManifest(&'a str),
    SizeManifest(&'a str),
    DeleteManifest(&'a str),
    PushManifest {
        reference: &'a str,
        content_type: Option<&'a [u8]>,
    },
    ListTags {
        n: Option<&'a str>,
        last: Option<&'a str>,
    },
    ListReferrers {
        digest: &'a str,
        artifact_type: Option<&'a str>,
    },
    SizeReferrers {
        digest: &'a str,
        artifact_type: Option<&'a str>,
    },
}

fn find_on_blob(method: Verb, digest: &str) -> Option<Operation<'_>>
    ensures { option_map shown_operation result ≡ on_blob method digest.now }
{
    match method {
        Verb::Get => Some(Operation::ReadBlob(digest)),
        Verb::Head => Some(Operation::SizeBlob(digest)),
        Verb::Delete => Some(Operation::DeleteBlob(digest)),
        _ => None,
    }
}

/// What a POST asks for: a mount, the push of a whole blob, or an upload session.
fn find_post<'a>(query: &Query<'a>) -> Operation<'a>
    ensures { shown_operation result ≡ post_by (text_in query.now.mount) (text_in query.now.«from»)
        (text_in query.now.digest) }
{
    match query.mount {
        Some(digest) => {
            let source = query.from;
            Operation::MountBlob { digest, source }
        }
        None => match query.digest {
            Some(digest) => Operation::PushBlob(digest),
            None => Operation::OpenSession,
        },
    }
}

fn find_on_uploads<'a>(method: Verb, query: &Query<'a>) -> Option<Operation<'a>>
    ensures { option_map shown_operation result ≡ on_uploads method (keys_of query.now) }
{
    match method {
        Verb::Post => Some(find_post(query)),
        _ => None,
    }
}

fn find_on_session<'a>(
    method: Verb,
    reference: &'a str,
    digest: Option<&'a str>,
    range: Option<&'a [u8]>,
) -> Option<Operation<'a>>
    ensures { option_map shown_operation result ≡ on_session method reference.now (text_in digest.entry)
        (text_in range.entry) }
{
    match method {
        Verb::Get => Some(Operation::ReadSession(reference)),
        Verb::Head => Some(Operation::ReadSession(reference)),
        Verb::Patch => Some(Operation::AppendChunk { reference, range }),
        Verb::Put => Some(Operation::CloseSession {
            reference,
            digest,
            range,
        }),
        _ => None,
    }
}

fn find_on_manifest<'a>(
    method: Verb,
    reference: &'a str,
    content_type: Option<&'a [u8]>,
) -> Option<Operation<'a>>
    ensures { option_map shown_operation result ≡ on_manifest method reference.now
        (text_in content_type.entry) }
{
    match method {
        Verb::Get => Some(Operation::ReadManifest(reference)),
        Verb::Head => Some(Operation::SizeManifest(reference)),
        Verb::Put => Some(Operation::PushManifest {
            reference,
            content_type,
        }),
        Verb::Delete => Some(Operation::DeleteManifest(reference)),
        _ => None,
    }
}

fn find_on_tags<'a>(method: Verb, query: &Query<'a>) -> Option<Operation<'a>>
    ensures { option_map shown_operation result ≡ on_tags method (keys_of query.now) }
{
    let n = query.n;
    let last = query.last;
    match method {
        Verb::Get => Some(Operation::ListTags { n, last }),
        Verb::Head => Some(Operation::ListTags { n, last }),
        _ => None,
    }
}

fn find_on_referrers<'a>(method: Verb, digest: &'a str, query: &Query<'a>) -> Option<Operation<'a>>
    ensures { option_map shown_operation result ≡ on_referrers method digest.now (keys_of query.now) }
{
    let artifact_type = query.artifact_type;
    match method {
        Verb::Get => Some(Operation::ListReferrers {
            digest,
            artifact_type,
        }),
        Verb::Head => Some(Operation::SizeReferrers {
            digest,
            artifact_type,
        }),
        _ => None,
    }
}

/// What a request asks for; `None` where its path's form has not the method.
pub fn find_operation<'a>(request: &Request<'a>) -> Option<Operation<'a>>
    ensures { option_map shown_operation result ≡ operation_of (ask_of request.now) }
{
    let method = request.method;
    match request.route {
        Route::NoForm => None,
        Route::Base => None,
        Route::Blob { digest, .. } => find_on_blob(method, digest),
        Route::Uploads { .. } => find_on_uploads(method, &request.query),
        Route::Session { reference, .. } => {
            find_on_session(
                method,
                reference,
                request.query.digest,
                request.content_range,
            )
        }
        Route::Manifest { reference, .. } => {
            find_on_manifest(method, reference, request.content_type)
        }
        Route::Tags { .. } => find_on_tags(method, &request.query),
        Route::Referrers { digest, .. } => find_on_referrers(method, digest, &request.query),
    }
}

/// The methods that a form has (RFC 9110, section 10.2.1).
pub fn allowed_methods(route: &Route) -> &'static str
    ensures { result.now ≡ allow_of (form_of route.now) }
{
    match route {
        Route::NoForm => "",
        Route::Base => "GET, HEAD",
        Route::Blob { .. } => "DELETE, GET, HEAD",
        Route::Uploads { .. } => "POST",
        Route::Session { .. } => "GET, HEAD, PATCH, PUT",
        Route::Manifest { .. } => "DELETE, GET, HEAD, PUT",
        Route::Tags { .. } => "GET, HEAD",
        Route::Referrers { .. } => "GET, HEAD",
    }
}

/// The level that an operation needs (profile).
fn needed_level(operation: &Operation) -> Level
    ensures { result ≡ needed_level (shown_operation operation.now) }
{
    match operation {
        Operation::ReadBlob(_) => Level::Pull,
        Operation::SizeBlob(_) => Level::Pull,
        Operation::DeleteBlob(_) => Level::Delete,
        Operation::PushBlob(_) => Level::Push,
        Operation::OpenSession => Level::Push,
        Operation::MountBlob { .. } => Level::Push,
        Operation::ReadSession(_) => Level::Push,
        Operation::AppendChunk { .. } => Level::Push,
        Operation::CloseSession { .. } => Level::Push,
        Operation::ReadManifest(_) => Level::Pull,
        Operation::SizeManifest(_) => Level::Pull,
        Operation::DeleteManifest(_) => Level::Delete,
        Operation::PushManifest { .. } => Level::Push,
        Operation::ListTags { .. } => Level::Pull,
        Operation::ListReferrers { .. } => Level::Pull,
        Operation::SizeReferrers { .. } => Level::Pull,
    }
}

/// The number of a level; each allows what the lower ones do.
fn rank(level: Level) -> u8
    ensures { result ≡ rank level }
{
    match level {
        Level::Pull => 1,
        Level::Push => 2,
        Level::Delete => 3,
    }
}

/// Whether a token with this level on the repository may do it.
pub fn allows(level: Option<Level>, operation: &Operation) -> bool
    ensures { result ≡ nat_le (rank (needed_level (shown_operation operation.now))) (rank_of level) }
{
    match level {
        Some(level) => rank(needed_level(operation)) <= rank(level),
        None => false,
    }
}
