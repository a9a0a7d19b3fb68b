//! Numbers that requests carry.

ghost use Rattle.std.specs.Prelude.{◌≡◌};
ghost use Rattle.registry_model.specs.Numbers.{number_in};

/// The number that one to nineteen digits write, with or without leading zeros (profile). `None` for
/// any other text. Takes no memory.
pub fn number(text: &[u8]) -> Option<u64>
    ensures { result ≡ number_in text.now }
{
    if text.is_empty() || text.len() > 19 {
        return None;
    }
    let mut number: u64 = 0;
    for digit in text {
        if !digit.is_ascii_digit() {
            return None;
        }
        number = number * 10 + u64::from(*digit - b'0');
    }
    Some(number)
}
