//! Texts that are written as far as they are taken.
ghost use Rattle.std.specs.Prelude.{OnOk};
ghost use Rattle.std.specs.Io.KnownBytes.{Appends};
ghost use Rattle.registry_orders.specs.Outputs.{AppendsPart, text_of_all};

use std::io;
use std::io::{ErrorKind, Write};

/// Writes a text. Where that fails, a first part of it was written, and nothing else.
pub fn write_text<W: Write>(out: &mut W, text: &[u8]) -> io::Result<()>
    ensures whole { OnOk result (Appends (W.contents out.old) (W.contents out.new) text.now) }
    ensures part { AppendsPart (W.contents out.old) (W.contents out.new) text.now }
{
    let mut rest = text;
    for _ in 0..u64::MAX {
        if rest.is_empty() {
            return Ok(());
        }
        match out.write(rest) {
            Ok(0) => return Err(io::Error::from(ErrorKind::WriteZero)),
            Ok(taken) => rest = &rest[taken..],
            Err(error) if error.kind() == ErrorKind::Interrupted => {}
            Err(error) => return Err(error),
        }
    }
    Err(io::Error::from(ErrorKind::Interrupted))
}

/// Writes texts, one behind the other, likewise.
pub fn write_texts<W: Write>(out: &mut W, texts: &[&str]) -> io::Result<()>
    ensures whole { OnOk result (Appends (W.contents out.old) (W.contents out.new) (text_of_all texts.now)) }
    ensures part { AppendsPart (W.contents out.old) (W.contents out.new) (text_of_all texts.now) }
{
    for text in texts {
        match write_text(out, text.as_bytes()) {
            Ok(()) => {}
            Err(error) => return Err(error),
        }
    }
    Ok(())
}
