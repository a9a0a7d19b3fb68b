//! Whether a pushed manifest's content type is that of its kind.

ghost use Rattle.std.specs.Prelude.{◌≡◌, ◌≤◌, length};
ghost use Rattle.std.specs.List.{before_first, position_or_len, prefix_len, suffix_len};
ghost use Rattle.registry_model.specs.Ask.{text_in};
ghost use Rattle.registry_model.specs.Manifests.{is_blank, is_semicolon, without_blanks, content_type_fits};

use oci_types::Kind;

/// Whether the byte is a space or a tab (RFC 9110, section 5.6.3).
fn is_blank(byte: u8) -> bool
    ensures { result ≡ is_blank byte }
{
    byte == b' ' || byte == b'\t'
}

fn leading_blanks(text: &[u8]) -> usize
    ensures count { result ≡ prefix_len is_blank text.now }
    ensures within { result ≤ length text.now }
{
    text.iter().take_while(|byte| is_blank(**byte)).count()
}

fn trailing_blanks(text: &[u8]) -> usize
    ensures count { result ≡ suffix_len is_blank text.now }
    ensures within { result ≤ length text.now }
{
    text.iter()
        .rev()
        .take_while(|byte| is_blank(**byte))
        .count()
}

/// The text without the spaces and tabs at its ends.
fn without_blanks(text: &[u8]) -> &[u8]
    ensures { result.now ≡ without_blanks text.now }
{
    let start = leading_blanks(text);
    let rest = &text[start..];
    let blanks = trailing_blanks(rest);
    &rest[..rest.len() - blanks]
}

/// Where the first semicolon stands, or the length where none does.
fn semicolon_place(value: &[u8]) -> usize
    ensures place { result ≡ position_or_len is_semicolon value.now }
    ensures within { result ≤ length value.now }
{
    value.iter().take_while(|byte| **byte != b';').count()
}

/// The value without its parameters.
fn before_semicolon(value: &[u8]) -> &[u8]
    ensures { result.now ≡ before_first is_semicolon value.now }
{
    &value[..semicolon_place(value)]
}

/// Whether the value is absent, empty, or the kind's media type, in any case and with any parameters
/// (RFC 9110, section 8.3).
pub(crate) fn content_type_fits(value: Option<&[u8]>, kind: Kind) -> bool
    ensures { result ≡ content_type_fits (text_in value.entry) kind }
{
    match value {
        None => true,
        Some(value) => value.is_empty()
            || without_blanks(before_semicolon(value)).eq_ignore_ascii_case(
                kind.media_type().as_bytes(),
            ),
    }
}
