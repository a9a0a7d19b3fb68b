//! The classes of bytes that several grammars share.
ghost use Rattle.std.specs.Prelude.{◌≡◌};
ghost use Rattle.oci_types.specs.Byte.{is_lowercase_or_digit, is_alphanumeric, is_lowercase_hex};

/// `[a-z0-9]`
pub fn is_lower_or_digit(byte: u8) -> bool
    ensures { result ≡ is_lowercase_or_digit byte }
{
    matches!(byte, b'a'..=b'z' | b'0'..=b'9')
}

/// `[a-zA-Z0-9]`
pub fn is_letter_or_digit(byte: u8) -> bool
    ensures { result ≡ is_alphanumeric byte }
{
    matches!(byte, b'a'..=b'z' | b'A'..=b'Z' | b'0'..=b'9')
}

/// `[a-f0-9]`
pub fn is_lower_hex(byte: u8) -> bool
    ensures { result ≡ is_lowercase_hex byte }
{
    matches!(byte, b'a'..=b'f' | b'0'..=b'9')
}
