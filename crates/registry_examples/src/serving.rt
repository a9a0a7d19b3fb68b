//! The ways in which a connection is served: whole, in pieces, and one request a turn.

use anyhow::{Result, bail};
use example_files::Request;
use registry_model::{Keeper, Settings};
use registry_server::{Conversation, FieldRoom, Step, serve_connection};
use registry_service::Service;
use std::alloc::Global;
use std::io;
use std::io::Read;

/// How the bytes of a connection come, and are answered.
#[derive(Clone, Copy, Debug, PartialEq, Eq)]
pub enum Way {
    /// All that there are at once.
    Whole,
    /// A byte a read, of a long connection more.
    InPieces,
    /// By the same pieces, without a reader: as they come, what is whole of them is answered.
    InTurns,
}

/// What is answered: the bytes, and how the connection ends.
#[derive(Drop)]
pub struct Answer {
    pub bytes: Vec<u8>,
    pub end: String,
}

/// Room for the answers of most connections, so that writing them takes no memory.
const ROOM: usize = 65_536;

/// A connection comes in so many pieces at most.
const MOST_PIECES: usize = 2_000;

/// More turns than one connection takes.
const MOST_TURNS: usize = 10_000;

/// Gives its bytes in reads of at most so many.
#[derive(Drop)]
struct Pieces<'a> {
    left: &'a [u8],
    size: usize,
}

impl Read for Pieces<'_> {
    fn read(&mut self, buf: &mut [u8]) -> io::Result<usize> {
        let most = self.size.min(buf.len()).min(self.left.len());
        let (now, later) = self.left.split_at(most);
        for (place, byte) in buf.iter_mut().zip(now.iter()) {
            *place = *byte;
        }
        self.left = later;
        Ok(most)
    }
}

/// Serves the requests as one connection.
pub fn served<K: Keeper>(
    alloc: Global,
    registry: &mut Service<K>,
    requests: &[Request],
    way: Way,
) -> Result<Answer> {
    let mut input = Vec::new(alloc);
    for request in requests {
        request.write_to(alloc, &mut input)?;
    }
    let left = input.as_slice();
    let size = left.len() / MOST_PIECES + 1;
    match way {
        Way::Whole => connected(alloc, registry, &mut input.as_slice()),
        Way::InPieces => connected(alloc, registry, &mut Pieces { left, size }),
        Way::InTurns => conversed(alloc, registry, left, size),
    }
}

fn connected<K: Keeper, R: Read>(
    alloc: Global,
    registry: &mut Service<K>,
    reader: &mut R,
) -> Result<Answer> {
    let mut bytes = Vec::with_capacity(alloc, ROOM)?;
    let end = serve_connection(alloc, registry, Settings::profile(), reader, &mut bytes);
    let end = format!(in alloc; "{end:?}")?;
    Ok(Answer { bytes, end })
}

fn conversed<K: Keeper>(
    alloc: Global,
    registry: &mut Service<K>,
    mut left: &[u8],
    size: usize,
) -> Result<Answer> {
    let mut conversation = Conversation::new(alloc);
    let mut room = FieldRoom::new(alloc)?;
    let mut bytes = Vec::new(alloc);
    for _ in 0..MOST_PIECES {
        let (now, later) = left.split_at(size.min(left.len()));
        conversation.receive(now);
        let _ = turns(alloc, registry, &mut conversation, &mut room, &mut bytes)?;
        left = later;
    }
    conversation.finish();
    match turns(alloc, registry, &mut conversation, &mut room, &mut bytes)? {
        Step::Ended(end) => {
            let end = format!(in alloc; "{end:?}")?;
            Ok(Answer { bytes, end })
        }
        _ => bail!("the conversation has no end"),
    }
}

/// Turns until nothing more comes of them; what is to go out goes.
fn turns<K: Keeper>(
    alloc: Global,
    registry: &mut Service<K>,
    conversation: &mut Conversation,
    room: &mut FieldRoom,
    bytes: &mut Vec<u8>,
) -> Result<Step> {
    for _ in 0..MOST_TURNS {
        let step = conversation.answer_next(alloc, registry, Settings::profile(), room);
        let going = conversation.outgoing();
        bytes.extend_from_slice(going.head)?;
        bytes.extend_from_slice(going.body)?;
        let count = going.len();
        conversation.sent(count);
        if !matches!(step, Step::Answered | Step::Interim) {
            return Ok(step);
        }
    }
    bail!("the turns have no end")
}
