//! The line that asks a server to stop, and the answer to it.
ghost use Rattle.std.specs.Prelude.{◌≡◌, ◌↔◌, IsTrue, IfOk};
ghost use Rattle.order_texts.specs.Stopping.{stop_line, stop_answer};

use std::alloc::{AllocError, Global};

/// The line that asks a server to stop, without its end. It is no order's (`laws::stop_is_no_order`).
pub const STOP: &str = "stop";

/// Whether a line, without its end, is that one.
pub fn is_stop(line: &[u8]) -> bool
    ensures { IsTrue result ↔ (line.now ≡ stop_line) }
{
    line == b"stop".as_slice()
}

/// The answer to it: done, and nothing is printed.
pub fn write_stopping(alloc: Global) -> Result<Vec<u8>, AllocError>
    ensures { IfOk result (λ bytes. bytes.items ≡ stop_answer) }
{
    Vec::from_slice(alloc, b"0\n")
}
