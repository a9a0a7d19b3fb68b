//! Members of a JSON object, in the form that a rule asks for.

ghost use Rattle.std.specs.Prelude.{◌≡◌, [], option_map};
ghost use Rattle.serde_json.specs.View.{view, items_view, members_view};
ghost use Rattle.oci_types.specs.Part.{Finds};
ghost use Rattle.oci_types.specs.Member.{present_at, text_at, optional_text_at, list_at, size_at, all_texts, has_items, some_text, some_text_at, pairs_of, texts_of, texts_at};

use oci_types::ManifestFault;
use serde_json::{Map, Value};
use std::alloc::Global;
use std::collections::BTreeMap;

/// The largest size of a descriptor, which is a signed 64-bit number.
const LARGEST_SIZE: u64 = 9_223_372_036_854_775_807;

/// A member that is neither absent nor null.
pub(crate) fn present<'v>(value: &'v Value, key: &str) -> Option<&'v Value>
    ensures { option_map (λ v. view v.now) result ≡ present_at key.now (view value.now) }
{
    let found = value.get(key)?;
    if found.is_null() { None } else { Some(found) }
}

/// A text that has to be there.
pub(crate) fn text<'v>(
    fault: ManifestFault,
    value: &'v Value,
    key: &str,
) -> Result<&'v str, ManifestFault>
    ensures { Finds fault (λ s. s.now) result (text_at key.now (view value.now)) }
{
    match value.get(key) {
        Some(found) => found.as_str().ok_or(fault),
        None => Err(fault),
    }
}

/// A text that may be absent or null.
pub(crate) fn optional_text<'v>(
    fault: ManifestFault,
    value: &'v Value,
    key: &str,
) -> Result<Option<&'v str>, ManifestFault>
    ensures { Finds fault (λ o. option_map (λ s. s.now) o) result
        (optional_text_at key.now (view value.now)) }
{
    match present(value, key) {
        None => Ok(None),
        Some(found) => match found.as_str() {
            Some(text) => Ok(Some(text)),
            None => Err(fault),
        },
    }
}

/// A list that has to be there. Null is the empty list.
pub(crate) fn list<'v>(value: &'v Value, key: &str) -> Option<&'v [Value]>
    ensures { option_map (λ l. items_view l.now) result ≡ list_at key.now (view value.now) }
{
    match value.get(key)? {
        Value::Null => Some(&[]),
        Value::Array(items) => Some(items.as_slice()),
        _ => None,
    }
}

/// A size in bytes, which has to be there.
pub(crate) fn size(fault: ManifestFault, value: &Value, key: &str) -> Result<u64, ManifestFault>
    ensures { Finds fault (λ n. n) result (size_at key.now (view value.now)) }
{
    let Some(found) = value.get(key) else {
        return Err(fault);
    };
    let size = found.as_u64().ok_or(fault)?;
    if size <= LARGEST_SIZE {
        Ok(size)
    } else {
        Err(fault)
    }
}

fn are_texts(items: &[Value]) -> bool
    ensures { result ≡ all_texts (items_view items.now) }
{
    for item in items {
        if !item.is_string() {
            return false;
        }
    }
    true
}

fn is_filled(items: &[Value]) -> bool
    ensures { result ≡ has_items (items_view items.now) }
{
    match items {
        [] => false,
        [_, ..] => true,
    }
}

/// Whether a list of texts has one. A list that is absent or null has none.
pub(crate) fn some_text(
    fault: ManifestFault,
    value: &Value,
    key: &str,
) -> Result<bool, ManifestFault>
    ensures { Finds fault (λ b. b) result (some_text_at key.now (view value.now)) }
{
    match present(value, key) {
        None => Ok(false),
        Some(found) => {
            let Some(items) = found.as_array() else {
                return Err(fault);
            };
            if are_texts(items) {
                Ok(is_filled(items))
            } else {
                Err(fault)
            }
        }
    }
}

/// Fills an empty map with the members, if they are texts.
fn fill(
    alloc: Global,
    fault: ManifestFault,
    texts: &mut BTreeMap<String, String>,
    members: &Map<String, Value>,
) -> Result<(), ManifestFault>
    requires { texts.old.entries ≡ [] }
    ensures { Finds fault (λ _. pairs_of texts.new.entries) result
        (texts_of (members_view members.now.entries)) }
{
    for (key, member) in members.iter() {
        let text = member.as_str().ok_or(fault)?;
        let name = key.clone()?;
        drop(texts.insert(name, String::from_str(alloc, text)?)?);
    }
    Ok(())
}

/// An object of texts. One that is absent or null is empty.
pub(crate) fn texts(
    alloc: Global,
    fault: ManifestFault,
    value: &Value,
    key: &str,
) -> Result<BTreeMap<String, String>, ManifestFault>
    ensures { Finds fault (λ m. pairs_of m.entries) result (texts_at key.now (view value.now)) }
{
    match present(value, key) {
        None => Ok(BTreeMap::new(alloc)),
        Some(found) => {
            let Some(members) = found.as_object() else {
                return Err(fault);
            };
            let mut texts = BTreeMap::new(alloc);
            fill(alloc, fault, &mut texts, members)?;
            Ok(texts)
        }
    }
}
