//! The text of items, in either form.
ghost use Rattle.std.specs.Prelude.{◌≡◌, map, string_bytes, MatchResult};
ghost use Rattle.order_texts.specs.Items.{item_shown};
ghost use Rattle.order_texts.specs.Texts.{text_of};

use crate::items::Item;
use crate::lines::as_lines;
use crate::objects::as_json;
use oci_types::Fault;
use registry_orders::Form;
use std::alloc::Global;

/// The text of items: their lines, or their JSON array and a line's end.
pub fn text_of(alloc: Global, items: &[Item], form: Form) -> Result<String, Fault>
    ensures { MatchResult result (λ text. string_bytes text ≡ text_of form (map item_shown items.now))
        (λ fault. fault ≡ Fault.Memory) }
{
    let made = match form {
        Form::Lines => as_lines(alloc, items),
        Form::Json => as_json(alloc, items),
    };
    match made {
        Ok(text) => Ok(text),
        Err(_) => Err(Fault::Memory),
    }
}
