//! What is to go out on a connection.
ghost use Rattle.std.specs.Prelude.{◌≡◌, ◌<◌, ◌≤◌, ◌-◌, ◌^◌, [], true, false, Some, None, length, drop, vec_len, if◌then◌else◌, Bool, OnOk, ◌==◌};
ghost use Rattle.registry_model.specs.Answer.{answer_of, content_of, busy_answer, failed_answer};
ghost use Rattle.registry_model.specs.Heads.{is_sent};
ghost use Rattle.registry_http.specs.ReplyText.{sent_text, reply_text};
ghost use Rattle.registry_http.specs.Expecting.{continue_text};
ghost use Rattle.registry_http.specs.Sending.{SendsReply};
ghost use Rattle.registry_http.specs.Ending.{SendsRefusal};

use crate::report::{Asked, Report};
use registry_http::fixed_text::{continue_text, failure_text, refusal_text};
use registry_http::reply_text::{body_bytes, sent_body};
use registry_http::{End, FramingRefusal, WriteFault, write_head};
use registry_model::{Body, Reply};
use std::alloc::{AllocError, Global};

/// Room that is made for the head of a reply before the service is asked.
const HEAD: usize = 4_096;

/// Heads of replies, one behind the other, and behind them the body of the last as the service made it.
#[derive(Drop)]
pub struct Outbox {
    heads: Vec<u8>,
    /// So many bytes of them went out.
    gone: usize,
    /// A body, or a text that takes no memory.
    body: Body,
    /// How many bytes it has, and how many of them went out.
    body_len: usize,
    body_gone: usize,
    /// What was put out last, as it is told.
    pub report: Option<Report>,
    ghost within: { gone ≤ vec_len heads },
    ghost body_measured: { body_len ≡ length (sent_text (content_of body)) },
    ghost body_fits: { body_len < 2 ^ 64 },
    ghost body_within: { body_gone ≤ length (sent_text (content_of body)) },
}

/// What is to go out on a connection: these bytes, and then those.
#[derive(Clone, Copy)]
pub struct Outgoing<'a> {
    pub head: &'a [u8],
    pub body: &'a [u8],
}

impl<'a> Outgoing<'a> {
    ghost use Rattle.registry_outbox.specs.Outboxes.{outgoing_text};

    /// How many bytes they are.
    pub fn len(&self) -> usize
        ensures { result ≡ length (outgoing_text self.now) }
    {
        self.head.len() + self.body.len()
    }

    /// Whether there is none.
    pub fn is_empty(&self) -> bool
        ensures { result ≡ (length (outgoing_text self.now) == 0) }
    {
        self.len() == 0
    }
}

impl Outbox {
    ghost use Rattle.registry_outbox.specs.Outboxes.{outgoing_text, heads_left, body_left, left};
    ghost use Rattle.registry_outbox.specs.Reports.{TellsRefusal, Reported};

    /// Nothing. It takes no memory before there is something.
    pub fn new(alloc: Global) -> Outbox
        ensures { left result ≡ [] }
    {
        Outbox {
            heads: Vec::new(alloc),
            gone: 0,
            body: Body::Constant(""),
            body_len: 0,
            body_gone: 0,
            report: None,
        }
    }

    /// What is to go out.
    pub fn outgoing(&self) -> Outgoing<'_>
        ensures { outgoing_text result ≡ left self.now }
    {
        Outgoing {
            head: &self.heads[self.gone..],
            body: &body_bytes(&self.body)[self.body_gone..],
        }
    }

    /// A body is to go out, in the place of the one before.
    fn set_body(&mut self, body: Body)
        ensures body { body_left self.new ≡ sent_text (content_of body) }
        ensures heads { heads_left self.new ≡ heads_left self.old }
        ensures report { self.new.report ≡ self.old.report }
    {
        self.body_len = body_bytes(&body).len();
        self.body_gone = 0;
        self.body = body;
    }

    /// So many bytes of the body went out. Behind its last byte it is let go.
    fn sent_of_body(&mut self, count: usize)
        requires { count ≤ length (body_left self.old) }
        ensures body { body_left self.new ≡ drop count (body_left self.old) }
        ensures heads { heads_left self.new ≡ heads_left self.old }
    {
        let gone = self.body_gone + count;
        if gone == self.body_len {
            self.set_body(Body::Constant(""));
        } else {
            self.body_gone = gone;
        }
    }

    /// So many bytes went out.
    pub fn sent(&mut self, count: usize)
        requires { count ≤ length (left self.old) }
        ensures { left self.new ≡ drop count (left self.old) }
    {
        let waiting = self.heads.len() - self.gone;
        if count < waiting {
            self.gone += count;
            return;
        }
        self.gone = 0;
        self.heads.clear();
        self.sent_of_body(count - waiting);
    }

    /// Gives back room for heads, where none is to go out.
    pub fn give_back(&mut self, alloc: Global)
        ensures { left self.new ≡ left self.old }
    {
        if self.gone == self.heads.len() {
            self.gone = 0;
            self.heads = Vec::new(alloc);
        }
    }

    /// Puts what is left of a body behind the heads, so that something can follow it. Takes no memory where
    /// nothing is left of it.
    fn join_body(&mut self) -> Result<(), AllocError>
        ensures same { left self.new ≡ left self.old }
        ensures none { OnOk result (body_left self.new ≡ []) }
        ensures report { self.new.report ≡ self.old.report }
    {
        let rest = &body_bytes(&self.body)[self.body_gone..];
        self.heads.extend_from_slice(rest)?;
        self.set_body(Body::Constant(""));
        Ok(())
    }

    /// Makes room for the head of a reply: one of at most 4,096 bytes takes no memory then.
    pub fn make_room(&mut self) -> Result<(), AllocError>
        ensures { left self.new ≡ left self.old }
    {
        self.join_body()?;
        self.heads.reserve(HEAD)
    }

    /// Puts a text behind what is to go out. Fails where that has a body of which something is left, and
    /// memory to copy that is wanting.
    fn put_text(&mut self, text: &'static str) -> Result<(), WriteFault>
        requires { 0 < length text.now }
        ensures report { self.new.report ≡ self.old.report }
        ensures sends { SendsReply result (Some (left self.old)) (Some (left self.new)) text.now }
    {
        match self.join_body() {
            Ok(()) => {
                self.set_body(Body::Constant(text));
                Ok(())
            }
            Err(_) => Err(WriteFault { written: 0 }),
        }
    }

    /// Puts out that a client may send the body for which it waits.
    pub fn put_continue(&mut self) -> Result<(), WriteFault>
        ensures report { self.new.report ≡ self.old.report }
        ensures sends { SendsReply result (Some (left self.old)) (Some (left self.new)) continue_text }
    {
        self.put_text(continue_text())
    }

    /// Puts out the reply where memory is wanting, or that of a service that is spent.
    pub fn put_failure(&mut self, spent: bool, close: bool) -> Result<(), WriteFault>
        ensures { (head : Bool) → SendsReply result (Some (left self.old)) (Some (left self.new))
            (reply_text head close (if spent then failed_answer else busy_answer)) }
    {
        self.put_text(failure_text(spent, close))
    }

    /// How many bytes are to go out.
    pub fn len(&self) -> usize
        ensures { result ≡ length (left self.now) }
    {
        self.outgoing().len()
    }

    /// How many more that are than so many.
    fn grown(&self, before: usize) -> usize
        ensures { result ≡ length (left self.now) - before }
    {
        self.len().saturating_sub(before)
    }

    /// What was put out last is told so: a reply of this status to that request, whose body has so many
    /// bytes, where `before` bytes were to go out before it.
    pub fn tell(&mut self, status: u16, asked: Asked, came: usize, before: usize)
        ensures same { left self.new ≡ left self.old }
        ensures told { self.new.report ≡ Some (record {
          status = status;
          asked = Some asked;
          came = came;
          went = length (left self.old) - before;
        }) }
    {
        let went = self.grown(before);
        self.report = Some(Report {
            status,
            asked: Some(asked),
            came,
            went,
        });
    }

    /// What was put out last, as it is told; none where that was asked before.
    pub fn take_report(&mut self) -> Option<Report>
        ensures report { result ≡ self.old.report }
        ensures none { self.new.report ≡ None }
        ensures same { left self.new ≡ left self.old }
    {
        self.report.take()
    }

    /// Puts out a refusal, tells it, and says how the connection ends with it.
    pub fn put_refusal(&mut self, refusal: FramingRefusal) -> End
        ensures sends { SendsRefusal result refusal (Some (left self.old)) (Some (left self.new)) }
        ensures tells { Reported self.new.report (left self.old) (left self.new)
            (λ r. TellsRefusal r refusal) }
    {
        let before = self.len();
        let end = self.refuse(refusal);
        let went = self.grown(before);
        self.report = Some(Report::refusal(refusal, went));
        end
    }

    fn refuse(&mut self, refusal: FramingRefusal) -> End
        ensures { SendsRefusal result refusal (Some (left self.old)) (Some (left self.new)) }
    {
        match self.put_text(refusal_text(refusal)) {
            Ok(()) => End::Refused(refusal),
            Err(fault) => End::WriteFailed {
                written: fault.written,
            },
        }
    }

    /// Puts out a reply, whose body stays as it is; with `head` it is left out, and with `close` the reply
    /// says that the connection is closed after it. Fails where memory for the head is wanting, of which the
    /// first bytes may be to go out.
    pub fn put_reply(&mut self, reply: Reply, head: bool, close: bool) -> Result<(), WriteFault>
        requires whole { head ≡ false → is_sent (answer_of reply).body ≡ true }
        ensures { SendsReply result (Some (left self.old)) (Some (left self.new))
            (reply_text head close (answer_of reply)) }
    {
        match self.join_body() {
            Ok(()) => {}
            Err(_) => return Err(WriteFault { written: 0 }),
        }
        match write_head(&reply, close, &mut self.heads) {
            Ok(()) => {
                self.set_body(sent_body(reply, head));
                Ok(())
            }
            Err(fault) => Err(fault),
        }
    }
}
