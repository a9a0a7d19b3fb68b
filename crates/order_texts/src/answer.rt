//! The text of an answer.
ghost use Rattle.std.specs.Prelude.{◌≡◌, ◌≤◌, ℕ, IfOk, IfSome, IfNone};
ghost use Rattle.oci_types.specs.Text.{Text};
ghost use Rattle.order_texts.specs.Answers.{answer_text, failure_text};

use registry_orders::Failure;
use std::alloc::{AllocError, Global};

/// What an order was answered.
#[derive(Clone, Copy)]
pub struct Answer<'a> {
    /// The exit status, 0 to 4.
    pub status: u8,
    /// What goes to standard output where the status is 0, and else to standard error.
    pub text: &'a [u8],
}

/// The answer that the bytes are, all of them; `None` where they are none.
pub fn read_answer(bytes: &[u8]) -> Option<Answer<'_>>
    ensures read { IfSome result (λ answer. bytes.now ≡ answer_text answer.status answer.text.now) }
    ensures status { IfSome result (λ answer. answer.status ≤ 4) }
    ensures none { IfNone result
        ((status : ℕ) (text : Text) → status ≤ 4 → ¬ (bytes.now ≡ answer_text status text)) }
{
    match bytes {
        [digit @ b'0'..=b'4', b'\n', text @ ..] => Some(Answer {
            status: *digit - b'0',
            text,
        }),
        _ => None,
    }
}

/// The answer to an order that failed: its exit status, and what is said of it on standard error.
pub fn write_failure(alloc: Global, failure: Failure) -> Result<Vec<u8>, AllocError>
    ensures { IfOk result (λ bytes. bytes.items ≡ failure_text failure) }
{
    let status = failure.status();
    let text = format!(in alloc; "{status}\n{failure}\n")?;
    Ok(text.into_bytes())
}
