//! The body of an error reply.

ghost use Rattle.std.specs.Prelude.{◌≡◌, string_bytes, IfOk, IfErr};
ghost use Rattle.serde_json.specs.View.{view};
ghost use Rattle.oci_types.specs.Errors.{error_line, error_data};

use crate::reply::written;
use oci_types::Fault;
use serde_json::{Value, json};
use std::alloc::{AllocError, Global};

fn error_value(alloc: Global, code: &str, message: &str) -> Result<Value, AllocError>
    ensures { IfOk result (λ v. view v ≡ error_data code.now message.now) }
{
    json!(in alloc; {"errors": [{"code": code, "message": message}]})
}

/// One error by its code and message (OCI Distribution Specification 1.1, Error Codes), as compact JSON
/// with its keys in byte order and with no `detail`. It fails only for want of memory.
pub fn error_text(alloc: Global, code: &str, message: &str) -> Result<String, Fault>
    ensures text { IfOk result (λ s. string_bytes s ≡ error_line code.now message.now) }
    ensures memory { IfErr result (λ e. e ≡ Fault.Memory) }
{
    written(alloc, error_value(alloc, code, message))
}
