//! Writing a reply's value as compact JSON.

ghost use Rattle.std.specs.Prelude.{◌≡◌, false, string_bytes, IfOk, IfErr, IsOkAnd};
ghost use Rattle.serde_json.specs.View.{view};
ghost use Rattle.serde_json.specs.Written.{has_float, compact_text};

use oci_types::Fault;
use serde_json::Value;
use std::alloc::{AllocError, Global};

/// The value's text with no space, the keys of objects in byte order.
pub(crate) fn written(alloc: Global, value: Result<Value, AllocError>) -> Result<String, Fault>
    requires { IfOk value (λ v. has_float (view v) ≡ false) }
    ensures text { IfOk result (λ s. IsOkAnd value (λ v. string_bytes s ≡ compact_text (view v))) }
    ensures memory { IfErr result (λ e. e ≡ Fault.Memory) }
{
    let Ok(value) = value else {
        return Err(Fault::Memory);
    };
    value.to_string(alloc).map_err(|_| Fault::Memory)
}
