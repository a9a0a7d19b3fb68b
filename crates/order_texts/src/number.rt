//! Numbers of a line: decimal, with no sign and no leading zero.
ghost use Rattle.std.specs.Prelude.{◌≡◌, ℕ, ◌^◌, ◌<◌, ◌||◌, MatchOption, slice_index, decimal};
ghost use Rattle.oci_types.specs.Byte.{is_between};
ghost use Rattle.order_texts.specs.Reading.{begins_plainly};

fn begins_with_nonzero_digit(text: &[u8]) -> bool
    ensures { result ≡ is_between 49 57 (slice_index text.now 0) }
{
    matches!(text, [b'1'..=b'9', ..])
}

fn begins_plainly(text: &str) -> bool
    ensures { result ≡ begins_plainly text.now }
{
    text == "0" || begins_with_nonzero_digit(text.as_bytes())
}

/// The number that the text writes.
#[tactic(auto, using(crate::proofs::NumberLemmas::plain_decimal, crate::proofs::NumberLemmas::number_read))]
pub fn number_in(text: &str) -> Option<u64>
    ensures { MatchOption result ((n : ℕ) → n < 2 ^ 64 → ¬ (text.now ≡ decimal n))
        (λ n. text.now ≡ decimal n) }
{
    if !begins_plainly(text) {
        return None;
    }
    text.parse().ok()
}
