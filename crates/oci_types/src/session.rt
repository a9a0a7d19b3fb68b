//! Numbers of upload sessions.
ghost use Rattle.std.specs.Prelude.{◌≡◌, slice_index};
ghost use Rattle.oci_types.specs.Byte.{is_between};
ghost use Rattle.oci_types.specs.SessionNumber.{session_number_of};

/// The largest number of an upload session (profile).
pub const LARGEST_SESSION_NUMBER: u64 = 9_223_372_036_854_775_807;

fn begins_with_nonzero_digit(text: &[u8]) -> bool
    ensures { result ≡ is_between 49 57 (slice_index text.now 0) }
{
    matches!(text, [b'1'..=b'9', ..])
}

/// The session number that the text writes (profile): decimal without leading zeros, from 1 to
/// 9,223,372,036,854,775,807. `None` for any other text. Takes no memory.
pub fn session_number(text: &str) -> Option<u64>
    ensures { result ≡ session_number_of text.now }
{
    if !begins_with_nonzero_digit(text.as_bytes()) {
        return None;
    }
    match text.parse::<u64>() {
        Ok(number) if number <= LARGEST_SESSION_NUMBER => Some(number),
        _ => None,
    }
}
