//! Strings of JSON with the shortest escapes (RFC 8259, section 7).

ghost use Rattle.std.specs.Prelude.{◌≡◌, ◌<◌, true, position};
ghost use Rattle.std.specs.Char.{digit_char};
ghost use Rattle.json.specs.Print.{escape_byte, escape, quoted};
ghost use Rattle.oci_documents.specs.Quoting.{is_escaped, short_escape};
ghost use Rattle.oci_documents.specs.Sink.{Takes};

use crate::sink::Sink;
use oci_types::Fault;

fn is_escaped(byte: u8) -> bool
    ensures { result ≡ is_escaped byte }
{
    byte == b'"' || byte == b'\\' || byte < b' '
}

/// Where the first byte stands that has an escape.
fn first_escaped(text: &[u8]) -> Option<usize>
    ensures { result ≡ position is_escaped text.now }
{
    text.iter().position(|byte| is_escaped(*byte))
}

/// The letter of a byte's short escape.
fn short_escape(byte: u8) -> Option<u8>
    ensures { result ≡ short_escape byte }
{
    match byte {
        b'"' => Some(b'"'),
        b'\\' => Some(b'\\'),
        8 => Some(b'b'),
        12 => Some(b'f'),
        b'\n' => Some(b'n'),
        b'\r' => Some(b'r'),
        b'\t' => Some(b't'),
        _ => None,
    }
}

fn hex_digit(digit: u8) -> u8
    requires { digit < 16 }
    ensures { result ≡ digit_char digit }
{
    if digit < 10 {
        b'0' + digit
    } else {
        b'a' + digit - 10
    }
}

/// Writes what stands in a string for a byte that may not stand there itself.
fn write_escape<S: Sink>(out: &mut S, byte: u8) -> Result<(), Fault>
    requires { is_escaped byte ≡ true }
    ensures { Takes S.took result out.old out.new (escape_byte byte) }
{
    match short_escape(byte) {
        Some(letter) => out.take(&[b'\\', letter]),
        None => {
            let first = hex_digit(byte / 16);
            let second = hex_digit(byte % 16);
            out.take(&[b'\\', b'u', b'0', b'0', first, second])
        }
    }
}

fn write_escaped<S: Sink>(out: &mut S, text: &[u8]) -> Result<(), Fault>
    ensures { Takes S.took result out.old out.new (escape text.now) }
{
    let mut rest = text;
    while let Some(at) = first_escaped(rest) {
        out.take(&rest[..at])?;
        write_escape(out, rest[at])?;
        rest = &rest[at + 1..];
    }
    out.take(rest)
}

/// Writes a text as a string.
pub(crate) fn write_quoted<S: Sink>(out: &mut S, text: &str) -> Result<(), Fault>
    ensures { Takes S.took result out.old out.new (quoted text.now) }
{
    out.take(b"\"")?;
    write_escaped(out, text.as_bytes())?;
    out.take(b"\"")
}
