//! The order of annotations. The function does nothing; it stands for its clause.

ghost use Rattle.oci_types.specs.Member.{pairs_of, IsInByteOrder};

use std::collections::BTreeMap;

/// The annotations of a manifest or of a referrer stand in byte order of their keys, each key once.
pub fn annotations_in_order(annotations: &BTreeMap<String, String>)
    ensures { IsInByteOrder (pairs_of annotations.now.entries) }
{
    let _entries = annotations.iter();
}
