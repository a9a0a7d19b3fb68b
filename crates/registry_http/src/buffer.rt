ghost use Rattle.std.specs.Prelude.{◌≡◌, ◌+◌, ◌<◌, ◌≤◌, ◌++◌, [], length, take, drop, slice_range, MatchResult, OnOk, OnErr, vec_len};
ghost use Rattle.std.specs.Io.KnownBytes.{Consumes, IsAtEnd, Keeps};

use crate::ending::{FramingRefusal, Stop};
use std::alloc::{AllocError, Global};
use std::io;
use std::io::Read;

/// The most bytes of one read.
const MOST_READ: usize = 1_048_576;

/// How many bytes are missing, for all that is known, of a head, a line or a trailer.
pub const LINES: usize = 65536;

/// How many bytes a read has room for, where so many are missing.
const LEAST_READ: usize = 65536;

/// How many bytes a read has room for at least: as many as are missing, or 65,536.
fn least_for(missing: usize) -> usize
    requires { 0 < missing }
    ensures { 0 < result }
{
    if missing < LEAST_READ {
        missing
    } else {
        LEAST_READ
    }
}

/// The bytes of a connection around a place: those before it belong to the request in hand, those
/// behind it were read and not taken apart yet.
///
/// What is let go at the place leaves a gap there, and what is let go at the front leaves room
/// before the first byte: no byte is moved for it. Bytes are moved where the place passes them and
/// there is a gap, and all are where room is wanting at the end.
#[derive(Drop)]
pub struct Buffer {
    room: Vec<u8>,
    /// The bytes before the place.
    start: usize,
    place: usize,
    /// The bytes behind it, which begin where the gap ends.
    unread: usize,
    end: usize,
    ghost started: { start ≤ place },
    ghost placed: { place ≤ unread },
    ghost ordered: { unread ≤ end },
    ghost within: { end ≤ vec_len room },
}

/// How many bytes to make room for, where so many are kept and so many are missing: as many as are kept, and
/// at least 65,536, but no more than are missing.
fn growth(kept: usize, missing: usize) -> usize
    requires { 0 < missing }
    ensures { 0 < result }
{
    let least = least_for(missing);
    let wanted = if kept < missing { kept } else { missing };
    if wanted < least { least } else { wanted }
}

/// Moves bytes down within the room.
fn move_down(room: &mut Vec<u8>, from: usize, count: usize, to: usize)
    requires down { to ≤ from }
    requires within { from + count ≤ vec_len room.old }
    ensures len { vec_len room.new ≡ vec_len room.old }
    ensures front { take (to + count) room.new.items
        ≡ take to room.old.items ++ take count (drop from room.old.items) }
    ensures behind { drop (to + count) room.new.items ≡ drop (to + count) room.old.items }
{
    if to == from {
        return;
    }
    room.copy_within(from..from + count, to);
}

/// Where a read into the room from this place ends.
fn read_end(len: usize, at: usize) -> usize
    requires { at < len }
    ensures some { at < result }
    ensures within { result ≤ len }
    ensures few { result ≤ at + 1048576 }
{
    if len - at < MOST_READ {
        len
    } else {
        at + MOST_READ
    }
}

/// Reads into the room from this place.
fn read_at<R: Read>(room: &mut [u8], at: usize, reader: &mut R) -> io::Result<usize>
    requires { at < length room.old }
    ensures front { take at room.new ≡ take at room.old }
    ensures cases { MatchResult result
        (λ n. (at + n ≤ length room.new) × (n ≤ 1048576)
        × Consumes (R.remaining reader.old) (R.remaining reader.new) (slice_range room.new at (at + n))
        × (n ≡ 0 → IsAtEnd (R.remaining reader.new)))
        (λ _. Keeps (R.remaining reader.old) (R.remaining reader.new)) }
{
    let end = read_end(room.len(), at);
    match reader.read(&mut room[at..end]) {
        Ok(n) => Ok(n),
        Err(error) => Err(error),
    }
}

impl Buffer {
    ghost use Rattle.registry_http.specs.Buffering.{before, behind, spare};
    ghost use Rattle.registry_http.specs.Reading.{PullsOr, FillStops};

    /// No bytes, and no room.
    pub fn new(alloc: Global) -> Buffer
        ensures before { before result ≡ [] }
        ensures behind { behind result ≡ [] }
    {
        Buffer {
            room: Vec::new(alloc),
            start: 0,
            place: 0,
            unread: 0,
            end: 0,
        }
    }

    /// The bytes before the place.
    pub fn before(&self) -> &[u8]
        ensures { result.now ≡ before self.now }
    {
        &self.room[self.start..self.place]
    }

    /// The bytes behind the place.
    pub fn behind(&self) -> &[u8]
        ensures { result.now ≡ behind self.now }
    {
        &self.room[self.unread..self.end]
    }

    /// Moves the place behind the next bytes.
    pub fn pass(&mut self, count: usize)
        requires { count ≤ length (behind self.old) }
        ensures before { before self.new ≡ before self.old ++ take count (behind self.old) }
        ensures behind { behind self.new ≡ drop count (behind self.old) }
    {
        let (place, unread) = (self.place, self.unread);
        move_down(&mut self.room, unread, count, place);
        self.unread = unread + count;
        self.place = place + count;
    }

    /// Lets go the next bytes.
    pub fn skip(&mut self, count: usize)
        requires { count ≤ length (behind self.old) }
        ensures before { before self.new ≡ before self.old }
        ensures behind { behind self.new ≡ drop count (behind self.old) }
    {
        self.unread += count;
    }

    /// Lets go the bytes before the place.
    pub fn forget(&mut self)
        ensures before { before self.new ≡ [] }
        ensures behind { behind self.new ≡ behind self.old }
    {
        self.place = self.unread;
        self.start = self.unread;
    }

    /// Lets go the bytes before the place, but the first so many.
    pub fn keep_front(&mut self, count: usize)
        requires { count ≤ length (before self.old) }
        ensures before { before self.new ≡ take count (before self.old) }
        ensures behind { behind self.new ≡ behind self.old }
    {
        self.place = self.start + count;
    }

    /// Moves all bytes to the front of the room.
    fn compact(&mut self)
        ensures before { before self.new ≡ before self.old }
        ensures behind { behind self.new ≡ behind self.old }
    {
        let (start, unread) = (self.start, self.unread);
        let kept = self.place - start;
        let others = self.end - unread;
        move_down(&mut self.room, start, kept, 0);
        move_down(&mut self.room, unread, others, kept);
        self.start = 0;
        self.place = kept;
        self.unread = kept;
        self.end = kept + others;
    }

    /// How many bytes there is room for at the end.
    fn spare(&self) -> usize
        ensures { result ≡ spare self.now }
    {
        self.room.len() - self.end
    }

    /// Makes room for so many more bytes.
    fn grow(&mut self, count: usize) -> Result<(), AllocError>
        requires { 0 < count }
        ensures before { before self.new ≡ before self.old }
        ensures behind { behind self.new ≡ behind self.old }
        ensures room { OnOk result (0 < spare self.new) }
    {
        match self.room.len().checked_add(count) {
            None => Err(AllocError),
            Some(len) => match self.room.resize(len, 0) {
                Ok(()) => Ok(()),
                Err(_) => Err(AllocError),
            },
        }
    }

    /// Makes room for a read, where so many bytes are missing.
    fn make_room(&mut self, missing: usize) -> Result<(), AllocError>
        requires { 0 < missing }
        ensures before { before self.new ≡ before self.old }
        ensures behind { behind self.new ≡ behind self.old }
        ensures room { OnOk result (0 < spare self.new) }
    {
        let least = least_for(missing);
        if least <= self.spare() {
            return Ok(());
        }
        self.compact();
        if least <= self.spare() {
            return Ok(());
        }
        let kept = self.end;
        self.grow(growth(kept, missing))
    }

    /// Reads into the room at the end.
    fn read_from<R: Read>(&mut self, reader: &mut R) -> Result<(), Stop>
        requires { 0 < spare self.old }
        ensures before { before self.new ≡ before self.old }
        ensures cases { PullsOr FillStops result
            (behind self.old) (behind self.new) (R.remaining reader.old) (R.remaining reader.new) }
        ensures few { OnOk result (length (behind self.new) ≤ length (behind self.old) + 1048576) }
        ensures kept { OnErr result (behind self.new ≡ behind self.old) }
    {
        match read_at(&mut self.room, self.end, reader) {
            Ok(0) => Err(Stop::AtEnd),
            Ok(n) => {
                self.end += n;
                Ok(())
            }
            Err(_) => Err(Stop::Broken),
        }
    }

    /// Reads some bytes behind the others, at least one and at most 1,048,576, where at least so many are
    /// missing.
    /// Room is made for as many as came already, and for 65,536, but for no more than are missing.
    pub fn read_more<R: Read>(&mut self, reader: &mut R, missing: usize) -> Result<(), Stop>
        requires { 0 < missing }
        ensures before { before self.new ≡ before self.old }
        ensures cases { PullsOr FillStops result
            (behind self.old) (behind self.new) (R.remaining reader.old) (R.remaining reader.new) }
        ensures few { OnOk result (length (behind self.new) ≤ length (behind self.old) + 1048576) }
        ensures kept { OnErr result (behind self.new ≡ behind self.old) }
    {
        match self.make_room(missing) {
            Ok(()) => self.read_from(reader),
            Err(_) => Err(Stop::Refuse(FramingRefusal::NoBufferMemory)),
        }
    }
}
