ghost use Rattle.std.specs.Prelude.{◌≡◌, [], true, false, if◌then◌else◌, IfOk, length};
ghost use Rattle.oci_types.specs.Text.{Text};
ghost use Rattle.httparse.specs.Spans.{span_bytes};
ghost use Rattle.registry_model.specs.Heads.{is_head, is_sent};
ghost use Rattle.httparse.specs.Grammar.{RequestHead};
ghost use Rattle.registry_model.specs.Answer.{answer_of, busy_answer, failed_answer};
ghost use Rattle.registry_model.specs.Ask.{ask_of};
ghost use Rattle.registry_model.specs.Doing.{Does};
ghost use Rattle.registry_model.specs.Keeping.{HeldStays, state_of};
ghost use Rattle.registry_service.specs.Bodies.{from_body};
ghost use Rattle.registry_http.specs.Asking.{ask_in, verb_of, path_text, query_in, keys_in};
ghost use Rattle.registry_http.specs.Decoding.{cow_text, keys_shown};
ghost use Rattle.registry_http.specs.Reading.{HeadFits, IsHeadAt};
ghost use Rattle.registry_outbox.specs.Reports.{IsAsked};

use httparse::spans::{HeaderSpan, RequestSpans};
use registry_http::fields::values_of;
use registry_http::query::{Values, text_if};
use registry_http::target::{decode_path, resource_if, route_if, split_target, verb};
use registry_http::token::{basic, host, token};
use registry_model::{Keeper, Reply, Request, Settings};
use registry_outbox::report::Asked;
use registry_service::{RequestBody, Service};
use std::alloc::{AllocError, Global};
use std::borrow::CowStr;

/// The decoded texts of a target.
#[derive(Drop)]
struct Texts<'a> {
    path: Option<CowStr<'a, Global>>,
    values: Values<'a>,
}

/// Decodes the texts of a target.
fn decode_target(alloc: Global, target: &[u8]) -> Result<Texts<'_>, AllocError>
    ensures path { IfOk result (λ texts. cow_text texts.path ≡ path_text target.now) }
    ensures keys { IfOk result (λ texts. keys_shown texts.values ≡ keys_in (query_in target.now)) }
{
    let values = Values::of(alloc, split_target(target).query)?;
    let path = decode_path(alloc, target)?;
    Ok(Texts { path, values })
}

/// The request of a head, where its spans lie, with the texts of its target. Its body is told apart.
fn request_of<'a>(
    settings: Settings,
    head: &'a [u8],
    fields: &[HeaderSpan],
    spans: &RequestSpans,
    texts: &'a Texts<'_>,
) -> Request<'a>
    requires { HeadFits (length head.now) fields.now spans.now }
    ensures asks { (h : RequestHead) → IsHeadAt head.now fields.now spans.now h
        → cow_text texts.now.path ≡ path_text h.target
        → keys_shown texts.now.values ≡ keys_in (query_in h.target)
        → ask_of result ≡ ask_in settings h [] }
    ensures verb { result.method ≡ verb_of (span_bytes head.now spans.now.method) }
{
    Request {
        settings,
        resource: resource_if(&settings, text_if(&texts.path)),
        host: host(head, fields),
        basic: basic(head, fields),
        token: token(head, fields),
        method: verb(spans.method.of(head)),
        route: route_if(text_if(&texts.path)),
        query: texts.values.query(),
        content_type: values_of(head, fields, b"content-type").first,
        content_range: values_of(head, fields, b"content-range").first,
        body: b"",
    }
}

/// The answer where memory is wanting for the texts of a target: 503, or 500 of a service that is spent.
fn unread(spent: bool) -> Reply
    ensures { answer_of result ≡ (if spent then failed_answer else busy_answer) }
{
    if spent {
        Reply::failed()
    } else {
        Reply::busy()
    }
}

/// Answers a request by its head, where its spans lie, and its body, and says what it asks. Where memory is
/// wanting for the texts of its target the answer is 503, or 500 where the service is spent.
pub fn answer<K: Keeper, B: RequestBody<K>>(
    alloc: Global,
    service: &mut Service<K>,
    settings: Settings,
    head: &[u8],
    fields: &[HeaderSpan],
    spans: &RequestSpans,
    body: B,
) -> (Reply, Asked)
    requires { HeadFits (length head.now) fields.now spans.now }
    ensures asked { (h : RequestHead) → IsHeadAt head.now fields.now spans.now h
        → IsAsked result.1 h (answer_of result.0) }
    ensures does { K.is_honest service.new → (h : RequestHead) → IsHeadAt head.now fields.now spans.now h
        → (t : Text) → B.is_body body (K.kept service.old) t
        → Does (state_of (K.kept service.old)) (ask_in settings h t) (answer_of result.0)
        (state_of (K.kept service.new)) }
    ensures holds { K.is_honest service.new → (t : Text) → B.is_body body (K.kept service.old) t
        → HeldStays (from_body (B.stage body) (K.kept service.old) (K.kept service.new))
        (K.kept service.new) }
    ensures carries { is_head (verb_of (span_bytes head.now spans.now.method)) ≡ false
        → is_sent (answer_of result.0).body ≡ true }
    ensures honest { K.is_honest service.new → K.is_honest service.old }
{
    match decode_target(alloc, spans.path.of(head)) {
        Ok(texts) => {
            let request = request_of(settings, head, fields, spans, &texts);
            let asked = Asked::of(alloc, &request);
            (service.handle_with(alloc, &request, body), asked)
        }
        Err(_) => {
            let asked = Asked::unread(verb(spans.method.of(head)));
            (unread(service.spent()), asked)
        }
    }
}
