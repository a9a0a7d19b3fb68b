ghost use Rattle.std.specs.Prelude.{◌≡◌, [], OnOk};
ghost use Rattle.registry_model.specs.Keeping.{state_of};
ghost use Rattle.registry_http.specs.Serving.{Serves};
ghost use Rattle.registry_http.specs.Sending.{Sends};
ghost use Rattle.registry_http.specs.Ending.{SendsRefusal};
ghost use Rattle.registry_conversation.specs.Shown.{begun, with_going};
ghost use Rattle.registry_conversation.specs.ConversationShowing.{shown};
ghost use Rattle.registry_outbox.specs.Outboxes.{outgoing_text};

use crate::phase::Step;
use crate::{Conversation, FieldRoom};
use registry_http::fixed_text::write_refusal;
use registry_http::outgoing::send;
use registry_http::{End, FramingRefusal};
use registry_model::{Keeper, Settings};
use registry_outbox::Outgoing;
use registry_service::Service;
use std::alloc::Global;
use std::io::{Read, Write};

/// So many reads are made of one connection at most.
const MOST_READS: u64 = 9_223_372_036_854_775_807;

/// Writes a refusal.
fn refuse<W: Write>(writer: &mut W, refusal: FramingRefusal) -> End
    ensures { SendsRefusal result refusal (W.contents writer.old) (W.contents writer.new) }
{
    match write_refusal(refusal, writer) {
        Ok(()) => End::Refused(refusal),
        Err(fault) => End::WriteFailed {
            written: fault.written,
        },
    }
}

/// Writes the one and then the other, or says how many bytes of both were written.
fn send_both<W: Write>(writer: &mut W, text: Outgoing<'_>) -> Result<(), usize>
    ensures { Sends result (W.contents writer.old) (W.contents writer.new) (outgoing_text text.entry) }
{
    match send(writer, text.head) {
        Ok(()) => {}
        Err(written) => return Err(written),
    }
    match send(writer, text.body) {
        Ok(()) => Ok(()),
        Err(written) => Err(text.head.len() + written),
    }
}

/// Writes what is to go out, or says how many bytes of it were written.
fn send_out<W: Write>(conversation: &mut Conversation, writer: &mut W) -> Result<(), usize>
    ensures sends { Sends result (W.contents writer.old) (W.contents writer.new)
        (shown conversation.old).going }
    ensures told { OnOk result (shown conversation.new ≡ with_going (shown conversation.old) []) }
{
    let text = conversation.outgoing();
    let count = text.len();
    match send_both(writer, text) {
        Ok(()) => {
            conversation.sent(count);
            Ok(())
        }
        Err(written) => Err(written),
    }
}

/// Has a conversation to which nothing came yet read from the reader, and writes what it puts out, to its
/// end. What a turn put out is written before the next is taken.
fn serve_requests<R: Read, W: Write, K: Keeper>(
    alloc: Global,
    service: &mut Service<K>,
    settings: Settings,
    conversation: &mut Conversation,
    room: &mut FieldRoom,
    reader: &mut R,
    writer: &mut W,
) -> End
    requires { shown conversation.old ≡ begun }
    ensures honest { K.is_honest service.new → K.is_honest service.old }
    ensures serves { K.is_honest service.new → Serves result (record {
      settings = settings;
      left = R.remaining reader.old;
      left' = R.remaining reader.new;
      held = W.contents writer.old;
      held' = W.contents writer.new;
      state = state_of (K.kept service.old);
      state' = state_of (K.kept service.new);
    }) }
{
    let mut reads = MOST_READS;
    'turns: loop {
        let step = conversation.answer_next(alloc, service, settings, room);
        match send_out(conversation, writer) {
            Ok(()) => {}
            Err(written) => return End::WriteFailed { written },
        }
        match step {
            Step::Answered => {}
            Step::Interim => {}
            Step::Ended(end) => return end,
            Step::Waits => {
                if reads == 0 {
                    return End::ReadFailed;
                }
                reads -= 1;
                match conversation.read_from(reader) {
                    Ok(()) => {}
                    Err(_) => return End::ReadFailed,
                }
            }
        }
    }
}

/// Serves one connection with these settings to its end: reads requests, answers them one after the other,
/// and writes the replies (RFC 9112; OCI Distribution Specification 1.1).
///
/// With all bytes that the reader gives, `Closed`, `Cut` and `Refused` come as those bytes spell requests,
/// however they were cut into reads; what is written are the texts of the replies and then that of a refusal.
/// `Refused(NoBufferMemory)` comes where memory for the connection's buffer is wanting, with the requests
/// before answered. `ReadFailed` is the same for the bytes that came before the failed read, or before
/// 9,223,372,036,854,775,807 reads. After `WriteFailed` all texts before went out whole, and of the text in
/// hand exactly the first `written` bytes; a request whose reply was in hand took effect. The head of a reply
/// is put together in memory, for which room is made before the service is asked: where it is longer than
/// 4,096 bytes, and memory is wanting, it is a write that failed.
pub fn serve_connection<R: Read, W: Write, K: Keeper>(
    alloc: Global,
    service: &mut Service<K>,
    settings: Settings,
    reader: &mut R,
    writer: &mut W,
) -> End
    ensures honest { K.is_honest service.new → K.is_honest service.old }
    ensures serves { K.is_honest service.new → Serves result (record {
      settings = settings;
      left = R.remaining reader.old;
      left' = R.remaining reader.new;
      held = W.contents writer.old;
      held' = W.contents writer.new;
      state = state_of (K.kept service.old);
      state' = state_of (K.kept service.new);
    }) }
{
    match FieldRoom::new(alloc) {
        Ok(room) => {
            // Both are let go in one place.
            let mut room = room;
            let mut conversation = Conversation::new(alloc);
            serve_requests(
                alloc,
                service,
                settings,
                &mut conversation,
                &mut room,
                reader,
                writer,
            )
        }
        Err(_) => refuse(writer, FramingRefusal::NoBufferMemory),
    }
}
