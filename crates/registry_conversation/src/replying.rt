ghost use Rattle.std.specs.Prelude.{◌≡◌, length, Option, Some, IfOk};
ghost use Rattle.oci_types.specs.Text.{Text};
ghost use Rattle.registry_model.specs.Answer.{Answer};
ghost use Rattle.registry_model.specs.Doing.{Does};
ghost use Rattle.registry_model.specs.Keeping.{HeldStays, state_of};
ghost use Rattle.registry_http.specs.Asking.{ask_in};
ghost use Rattle.registry_http.specs.Spelling.{Item, closes};
ghost use Rattle.registry_http.specs.Serving.{reply_for};
ghost use Rattle.registry_http.specs.Sending.{SendsReply};
ghost use Rattle.registry_http.specs.Reading.{HeadFits, IsHeadAt};
ghost use Rattle.registry_service.specs.Bodies.{from_body};
ghost use Rattle.registry_outbox.specs.Outboxes.{left};
ghost use Rattle.registry_outbox.specs.Reports.{TellsAnswer, Reported};

use crate::answering::answer;
use httparse::spans::{HeaderSpan, RequestSpans};
use registry_http::WriteFault;
use registry_http::persistence::closes;
use registry_http::target::{is_head, verb};
use registry_model::{Keeper, Settings};
use registry_outbox::outbox::Outbox;
use registry_outbox::report::{Asked, failure_code};
use registry_service::{RequestBody, Service};
use std::alloc::Global;

/// What came of a reply that was written: whether the connection is closed after it, as was said.
fn told(written: Result<(), WriteFault>, closing: bool) -> Result<bool, WriteFault>
    ensures told { IfOk result (λ told. told ≡ closing) }
    ensures sends { (held held' : Option Text) (text : Text) → SendsReply written held held' text
        → SendsReply result held held' text }
{
    match written {
        Ok(()) => Ok(closing),
        Err(fault) => Err(fault),
    }
}

/// Answers the request of this head, in which the spans lie, and this body; the reply goes behind what is to
/// go out, and is told. Says whether the connection is closed after it. Where there is no room for a head the
/// service is not asked: the answer is 503, or 500 of one that is spent.
///
/// Fails where memory for the reply is wanting all the same; then its first bytes are to go out, and the
/// request took effect.
pub fn reply_to<K: Keeper, B: RequestBody<K>>(
    alloc: Global,
    service: &mut Service<K>,
    settings: Settings,
    head: &[u8],
    fields: &[HeaderSpan],
    spans: &RequestSpans,
    body: B,
    outbox: &mut Outbox,
) -> Result<bool, WriteFault>
    requires { HeadFits (length head.now) fields.now spans.now }
    ensures honest { K.is_honest service.new → K.is_honest service.old }
    ensures closing { (i : Item) → IsHeadAt head.now fields.now spans.now i.head
        → IfOk result (λ closing. closing ≡ closes i) }
    ensures replies { K.is_honest service.new → (i : Item) → IsHeadAt head.now fields.now spans.now i.head
        → B.is_body body (K.kept service.old) i.body
        → (a : Answer) × Does (state_of (K.kept service.old)) (ask_in settings i.head i.body) a
        (state_of (K.kept service.new))
        × SendsReply result (Some (left outbox.old)) (Some (left outbox.new)) (reply_for i a)
        × Reported outbox.new.report (left outbox.old) (left outbox.new) (λ r. TellsAnswer r i a) }
    ensures holds { K.is_honest service.new → (t : Text) → B.is_body body (K.kept service.old) t
        → HeldStays (from_body (B.stage body) (K.kept service.old) (K.kept service.new))
        (K.kept service.new) }
{
    let came = body.size();
    let closing = closes(head, fields, spans.version);
    let before = outbox.len();
    match outbox.make_room() {
        Ok(()) => {}
        Err(_) => {
            let spent = service.spent();
            let written = outbox.put_failure(spent, closing);
            let asked = Asked::unread(verb(spans.method.of(head)));
            outbox.tell(failure_code(spent), asked, came, before);
            return told(written, closing);
        }
    }
    let (reply, asked) = answer(alloc, service, settings, head, fields, spans, body);
    let status = reply.status.code();
    let written = outbox.put_reply(reply, is_head(spans.method.of(head)), closing);
    outbox.tell(status, asked, came, before);
    told(written, closing)
}
