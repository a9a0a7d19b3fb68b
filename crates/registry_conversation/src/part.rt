ghost use Rattle.std.specs.Prelude.{◌≡◌, length};
ghost use Rattle.registry_http.specs.Buffering.{before, behind};
ghost use Rattle.registry_model.specs.declared.settings.Settings.{Settings};
ghost use Rattle.registry_conversation.specs.Parts.{FindsEnd, TakesFrom, TakesAll, LetsGo, IsSmaller};

use httparse::spans::HeaderSpan;
use registry_http::FramingRefusal;
use registry_http::buffer::Buffer;
use registry_http::chunk::{FoundLine, find_line};
use registry_http::trailer::{FoundTrailer, find_trailer};
use registry_model::Settings;

/// What is missing next of a body whose head was taken (RFC 9112, sections 6.3 and 7.1).
#[derive(Clone, Copy)]
pub enum Part {
    /// The rest of a body of `size` bytes, of which `came` were taken.
    Length {
        size: usize,
        came: usize,
    },
    /// The line of a chunk, behind chunks that carry so many bytes.
    Line(usize),
    /// The rest of the data of a chunk of `size` bytes, of which `came` were taken. With that chunk the
    /// chunks carry `total`.
    Data {
        total: usize,
        size: usize,
        came: usize,
    },
    /// The trailer, behind the line that ends the chunks, which carry so many bytes.
    Trailer(usize),
}

/// What the unread bytes hold behind the data of a chunk.
pub enum FoundEnd {
    /// CR LF.
    Whole,
    /// Not so many bytes yet.
    NotYet,
    /// Something else.
    Never,
}

/// What came of a part.
pub enum Took {
    /// It was taken, and this part is next.
    Next(Part),
    /// It was taken, and the body is whole: so many bytes.
    Whole(usize),
    /// It is not whole yet: this is missing of it.
    NotYet(Part),
    /// It is refused, whatever bytes follow.
    Never(FramingRefusal),
}

/// What came of a body.
pub enum Taken {
    /// It was taken: so many bytes.
    Whole(usize),
    /// This is missing; what is before it was taken.
    Missing(Part),
    /// It is refused, whatever bytes follow.
    Refused(FramingRefusal),
}

/// Looks for CR LF behind so many bytes (RFC 9112, section 7.1).
fn find_end(unread: &[u8], size: usize) -> FoundEnd
    ensures { FindsEnd result size unread.now }
{
    if unread.len() <= size {
        return FoundEnd::NotYet;
    }
    if unread[size] != b'\r' {
        return FoundEnd::Never;
    }
    let last = size + 1;
    if unread.len() == last {
        return FoundEnd::NotYet;
    }
    if unread[last] != b'\n' {
        return FoundEnd::Never;
    }
    FoundEnd::Whole
}

/// Takes what has come of a body of `size` bytes, of which `came` were taken.
fn take_length(buffer: &mut Buffer, size: usize, came: usize) -> Took
    ensures takes { (settings : Settings) → TakesFrom settings (Part.Length size came) result
        (before buffer.old) (behind buffer.old) (before buffer.new) (behind buffer.new) }
    ensures fewer { LetsGo (before buffer.old) (behind buffer.old) (before buffer.new) (behind buffer.new) }
    ensures smaller { (settings : Settings) → IsSmaller settings (Part.Length size came) result }
{
    let missing = size.saturating_sub(came);
    let here = buffer.behind().len();
    if here < missing {
        buffer.pass(here);
        return Took::NotYet(Part::Length {
            size,
            came: came + here,
        });
    }
    buffer.pass(missing);
    Took::Whole(size)
}

/// Takes the line of a chunk, behind chunks that carry `total` bytes: with it they carry no more than the
/// settings allow.
fn take_line(buffer: &mut Buffer, total: usize, settings: Settings) -> Took
    ensures takes { TakesFrom settings (Part.Line total) result
        (before buffer.old) (behind buffer.old) (before buffer.new) (behind buffer.new) }
    ensures fewer { LetsGo (before buffer.old) (behind buffer.old) (before buffer.new) (behind buffer.new) }
    ensures smaller { IsSmaller settings (Part.Line total) result }
{
    let line = match find_line(buffer.behind()) {
        FoundLine::Whole(line) => line,
        FoundLine::NotYet => return Took::NotYet(Part::Line(total)),
        FoundLine::Never => return Took::Never(FramingRefusal::UnreadableChunk),
    };
    let most = settings.most_body();
    let room = most.saturating_sub(total as u64);
    if line.size > room {
        return Took::Never(FramingRefusal::ChunksTooLarge);
    }
    buffer.skip(line.len);
    let size = line.size as usize;
    if size == 0 {
        return Took::Next(Part::Trailer(total));
    }
    Took::Next(Part::Data {
        total: total + size,
        size,
        came: 0,
    })
}

/// Takes what has come of the data of a chunk, of which `came` bytes were taken, and once it is whole CR LF
/// behind it.
fn take_data(buffer: &mut Buffer, total: usize, size: usize, came: usize) -> Took
    ensures takes { (settings : Settings) → TakesFrom settings (Part.Data total size came) result
        (before buffer.old) (behind buffer.old) (before buffer.new) (behind buffer.new) }
    ensures fewer { LetsGo (before buffer.old) (behind buffer.old) (before buffer.new) (behind buffer.new) }
    ensures smaller { (settings : Settings) → IsSmaller settings (Part.Data total size came) result }
{
    let missing = size.saturating_sub(came);
    let here = buffer.behind().len();
    if here < missing {
        buffer.pass(here);
        return Took::NotYet(Part::Data {
            total,
            size,
            came: came + here,
        });
    }
    match find_end(buffer.behind(), missing) {
        FoundEnd::Whole => {}
        FoundEnd::NotYet => return Took::NotYet(Part::Data { total, size, came }),
        FoundEnd::Never => return Took::Never(FramingRefusal::UnreadableChunk),
    }
    buffer.pass(missing);
    buffer.skip(2);
    Took::Next(Part::Line(total))
}

/// Takes the trailer, behind chunks that carry `total` bytes.
fn take_trailer(buffer: &mut Buffer, fields: &mut [HeaderSpan], total: usize) -> Took
    requires { length fields.old ≡ 8192 }
    ensures takes { (settings : Settings) → TakesFrom settings (Part.Trailer total) result
        (before buffer.old) (behind buffer.old) (before buffer.new) (behind buffer.new) }
    ensures fewer { LetsGo (before buffer.old) (behind buffer.old) (before buffer.new) (behind buffer.new) }
    ensures smaller { (settings : Settings) → IsSmaller settings (Part.Trailer total) result }
{
    match find_trailer(buffer.behind(), fields) {
        FoundTrailer::Whole(len) => {
            buffer.skip(len);
            Took::Whole(total)
        }
        FoundTrailer::NotYet => Took::NotYet(Part::Trailer(total)),
        FoundTrailer::Never => Took::Never(FramingRefusal::UnreadableChunk),
    }
}

/// Takes what has come of a part off the unread bytes.
fn take_part(buffer: &mut Buffer, fields: &mut [HeaderSpan], part: Part, settings: Settings) -> Took
    requires { length fields.old ≡ 8192 }
    ensures takes { TakesFrom settings part result
        (before buffer.old) (behind buffer.old) (before buffer.new) (behind buffer.new) }
    ensures fewer { LetsGo (before buffer.old) (behind buffer.old) (before buffer.new) (behind buffer.new) }
    ensures smaller { IsSmaller settings part result }
{
    match part {
        Part::Length { size, came } => take_length(buffer, size, came),
        Part::Line(total) => take_line(buffer, total, settings),
        Part::Data { total, size, came } => take_data(buffer, total, size, came),
        Part::Trailer(total) => take_trailer(buffer, fields, total),
    }
}

/// Takes what has come of a body off the unread bytes, from this part on: each byte once, however
/// often it is called.
pub fn take_body(
    buffer: &mut Buffer,
    fields: &mut [HeaderSpan],
    part: Part,
    settings: Settings,
) -> Taken
    requires { length fields.old ≡ 8192 }
    ensures takes { TakesAll settings part result
        (before buffer.old) (behind buffer.old) (before buffer.new) (behind buffer.new) }
    ensures fewer { LetsGo (before buffer.old) (behind buffer.old) (before buffer.new) (behind buffer.new) }
{
    let mut next = part;
    'parts: loop {
        match take_part(buffer, fields, next, settings) {
            Took::Next(more) => next = more,
            Took::Whole(size) => return Taken::Whole(size),
            Took::NotYet(missing) => return Taken::Missing(missing),
            Took::Never(refusal) => return Taken::Refused(refusal),
        }
    }
}
