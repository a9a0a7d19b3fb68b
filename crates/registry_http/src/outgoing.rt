ghost use Rattle.std.specs.Prelude.{◌≡◌, false, [], Option};
ghost use Rattle.oci_types.specs.Text.{Text};
ghost use Rattle.registry_http.specs.Sending.{Sends, SendsReply, SendsBehind, Carries, GoesOn};

use arrayvec::ArrayVec;
use std::io::Write;

/// A failed write: how many bytes of the text were written before it.
#[derive(Clone, Copy)]
pub struct WriteFault {
    pub written: usize,
}

/// A text on its way to a writer, of which the last bytes may wait to be written with what follows.
///
/// After a failed write nothing more is written.
#[derive(Drop)]
pub struct Outgoing {
    waiting: ArrayVec<u8, 4096>,
    sent: usize,
    failed: bool,
}

/// Writes the text, or says how many of its bytes were written.
pub fn send<W: Write>(writer: &mut W, text: &[u8]) -> Result<(), usize>
    ensures { Sends result (W.contents writer.old) (W.contents writer.new) text.now }
{
    let mut at = 0;
    while at < text.len() {
        match writer.write(&text[at..]) {
            Ok(0) => return Err(at),
            Ok(n) => at += n,
            Err(_) => return Err(at),
        }
    }
    Ok(())
}

/// Writes a text behind `sent` bytes: all bytes written with it, or those until the write failed.
fn send_behind<W: Write>(writer: &mut W, sent: usize, text: &[u8]) -> Result<usize, usize>
    ensures { SendsBehind result sent (W.contents writer.old) (W.contents writer.new) text.now }
{
    match sent.checked_add(text.len()) {
        None => Err(sent),
        Some(total) => match send(writer, text) {
            Ok(()) => Ok(total),
            Err(n) => Err(sent + n),
        },
    }
}

impl Outgoing {
    /// The empty text.
    pub fn new() -> Outgoing
        ensures { (held : Option Text) → Carries result held held [] }
    {
        Outgoing {
            waiting: ArrayVec::new(),
            sent: 0,
            failed: false,
        }
    }

    /// Writes what waits.
    fn flush<W: Write>(&mut self, writer: &mut W)
        ensures carries { (held : Option Text) (text : Text)
            → Carries self.old held (W.contents writer.old) text
            → Carries self.new held (W.contents writer.new) text }
        ensures none { self.new.failed ≡ false → self.new.waiting.items ≡ [] }
    {
        if self.failed {
            return;
        }
        match send_behind(writer, self.sent, self.waiting.as_slice()) {
            Ok(total) => {
                self.sent = total;
                self.waiting.clear();
            }
            Err(written) => {
                self.sent = written;
                self.failed = true;
            }
        }
    }

    /// Writes what waits, and then these bytes.
    fn send_all<W: Write>(&mut self, writer: &mut W, bytes: &[u8])
        ensures { GoesOn self.old self.new (W.contents writer.old) (W.contents writer.new) bytes.now }
    {
        self.flush(writer);
        if self.failed {
            return;
        }
        match send_behind(writer, self.sent, bytes) {
            Ok(total) => self.sent = total,
            Err(written) => {
                self.sent = written;
                self.failed = true;
            }
        }
    }

    /// Goes on with these bytes: they wait where there is room for them, and are written with what
    /// waited where there is none.
    pub fn put<W: Write>(&mut self, writer: &mut W, bytes: &[u8])
        ensures { GoesOn self.old self.new (W.contents writer.old) (W.contents writer.new) bytes.now }
    {
        match self.waiting.try_extend_from_slice(bytes) {
            Ok(()) => {}
            Err(_) => self.send_all(writer, bytes),
        }
    }

    /// Writes what waits, and says whether all was written, or how many bytes were.
    pub fn finish<W: Write>(mut self, writer: &mut W) -> Result<(), WriteFault>
        ensures { (held : Option Text) (text : Text) → Carries self held (W.contents writer.old) text
            → SendsReply result held (W.contents writer.new) text }
    {
        self.flush(writer);
        if self.failed {
            Err(WriteFault { written: self.sent })
        } else {
            Ok(())
        }
    }
}
