//! Where a chunk's bytes stand in their upload session.

ghost use Rattle.std.specs.Prelude.{◌≡◌, ◌==◌, false, true, Some, MatchOption, position};
ghost use Rattle.std.specs.Char.{is_ascii_digit};
ghost use Rattle.std.specs.List.{before_first, after_first, list_any, list_all};
ghost use Rattle.std.specs.Str.{all_ascii_digits};
ghost use Rattle.registry_model.specs.Ask.{text_in};
ghost use Rattle.registry_model.specs.Range.{without_unit, is_whole_length, positions_from, positions_of, range_in, positions_fit, range_verdict};

use crate::numbers::number;

/// What a chunk's `Content-Range` says beside the session's length and the body's.
#[derive(Clone, Copy, Debug)]
pub enum RangeVerdict {
    Fits,
    /// It is no range, or its last position is before its first.
    Malformed,
    /// Its first position is not the session's length.
    OutOfOrder,
    /// It is not as long as the body.
    Unequal,
}

/// What stands before the first place of a byte, and what behind it.
#[derive(Clone, Copy)]
struct Parts<'a> {
    before: &'a [u8],
    behind: &'a [u8],
}

/// The first place of a byte.
fn find_byte(text: &[u8], byte: u8) -> Option<usize>
    ensures { result ≡ position (λ b. b == byte) text.now }
{
    text.iter().position(|other| *other == byte)
}

/// Splits a text at the first place of a byte; `None` where it has none.
fn split_at_byte(text: &[u8], byte: u8) -> Option<Parts<'_>>
    ensures { MatchOption result
        ((list_any (λ b. b == byte) text.now ≡ false) × (before_first (λ b. b == byte) text.now ≡ text.now))
        (λ parts. (list_any (λ b. b == byte) text.now ≡ true)
        × (parts.before.now ≡ before_first (λ b. b == byte) text.now)
        × (parts.behind.now ≡ after_first (λ b. b == byte) text.now)) }
{
    match find_byte(text, byte) {
        Some(at) => Some(Parts {
            before: &text[..at],
            behind: &text[at + 1..],
        }),
        None => None,
    }
}

/// Whether each byte is a digit.
fn all_digits(text: &[u8]) -> bool
    ensures { result ≡ list_all is_ascii_digit text.now }
{
    text.iter().all(|byte| byte.is_ascii_digit())
}

/// Whether there is nothing but digits.
fn are_digits(text: &[u8]) -> bool
    ensures { result ≡ all_ascii_digits text.now }
{
    all_digits(text)
}

/// The range behind its unit, where that stands (RFC 9110, section 14.4).
fn without_unit(value: &[u8]) -> &[u8]
    ensures { result.now ≡ without_unit value.now }
{
    let end = value.len().min(6);
    if value[..end].eq_ignore_ascii_case(b"bytes ") {
        &value[end..]
    } else {
        value
    }
}

/// Whether what stands behind `/` may stand there: `*`, or digits (RFC 9110, section 14.4).
fn is_whole_length(text: &[u8]) -> bool
    ensures { result ≡ is_whole_length text.now }
{
    text == b"*".as_slice() || !text.is_empty() && are_digits(text)
}

/// The verdict on the first and the last position of a range.
fn verdict_on_ends(first: u64, last: u64, length: u64, body_length: u64) -> RangeVerdict
    ensures { result ≡ positions_fit (positions_from (Some first) (Some last)) length body_length }
{
    if last < first {
        RangeVerdict::Malformed
    } else if first != length {
        RangeVerdict::OutOfOrder
    } else if body_length == 0 || last - first != body_length - 1 {
        RangeVerdict::Unequal
    } else {
        RangeVerdict::Fits
    }
}

/// The verdict on the positions of a range.
fn verdict_on_positions(text: &[u8], length: u64, body_length: u64) -> RangeVerdict
    ensures { result ≡ positions_fit (positions_of text.now) length body_length }
{
    let Some(parts) = split_at_byte(text, b'-') else {
        return RangeVerdict::Malformed;
    };
    let Some(first) = number(parts.before) else {
        return RangeVerdict::Malformed;
    };
    let Some(last) = number(parts.behind) else {
        return RangeVerdict::Malformed;
    };
    verdict_on_ends(first, last, length, body_length)
}

/// The verdict on a range.
fn verdict_on(value: &[u8], length: u64, body_length: u64) -> RangeVerdict
    ensures { result ≡ positions_fit (range_in value.now) length body_length }
{
    let text = without_unit(value);
    match split_at_byte(text, b'/') {
        None => verdict_on_positions(text, length, body_length),
        Some(parts) => {
            if is_whole_length(parts.behind) {
                verdict_on_positions(parts.before, length, body_length)
            } else {
                RangeVerdict::Malformed
            }
        }
    }
}

/// Whether the `Content-Range` of a chunk of `body_length` bytes fits an upload session of `length`
/// bytes (OCI Distribution Specification 1.1, Pushing a blob in chunks): the first position is the
/// session's length, and there are as many positions as bytes. `bytes` in any case and a space may
/// stand before the range, and `/` with `*` or digits behind it; neither says anything (profile).
/// Without the field the chunk fits. Takes no memory.
pub fn range_fits(range: Option<&[u8]>, length: u64, body_length: u64) -> RangeVerdict
    ensures { result ≡ range_verdict (text_in range.entry) length body_length }
{
    match range {
        None => RangeVerdict::Fits,
        Some(value) => verdict_on(value, length, body_length),
    }
}
