//! Tags.
ghost use Rattle.std.specs.Prelude.{◌≡◌, ◌↔◌, true, IsTrue};
ghost use Rattle.std.specs.List.{list_all};
ghost use Rattle.oci_types.specs.Reading.{ReadsWord, ReadsWordBy};
ghost use Rattle.oci_types.specs.Tag.{IsTag, is_tag, are_tag_characters, is_tag_start, is_tag_character};

use crate::{NameFault, byte};
use std::alloc::Global;
use std::marker::Model;

/// The most bytes of a tag.
pub const LONGEST_TAG: usize = 128;

/// `[a-zA-Z0-9_]`
fn is_start(byte: u8) -> bool
    ensures { result ≡ is_tag_start byte }
{
    byte::is_letter_or_digit(byte) || byte == b'_'
}

/// `[a-zA-Z0-9._-]`
fn is_character(byte: u8) -> bool
    ensures { result ≡ is_tag_character byte }
{
    byte::is_letter_or_digit(byte) || matches!(byte, b'.' | b'_' | b'-')
}

fn are_characters(text: &[u8]) -> bool
    ensures { result ≡ list_all is_tag_character text.now }
{
    text.iter().all(|byte| is_character(*byte))
}

fn has_characters(text: &[u8]) -> bool
    ensures { result ≡ are_tag_characters text.now }
{
    match text.split_first() {
        Some((first, rest)) => is_start(*first) && are_characters(rest),
        None => false,
    }
}

fn is_tag_text(text: &str) -> bool
    ensures test { result ≡ is_tag text.now }
    ensures grammar { IsTrue result ↔ IsTag text.now }
{
    text.len() <= LONGEST_TAG && has_characters(text.as_bytes())
}

/// A tag (OCI Distribution Specification 1.1, Pulling manifests):
/// `[a-zA-Z0-9_][a-zA-Z0-9._-]{0,127}`.
#[derive(Clone, Debug)]
pub struct Tag {
    text: String,
}

impl Drop for Tag {
    fn drop(self) {
        let Tag { text: _ } = self;
    }
}

impl Model for Tag {
    ghost use Rattle.std.specs.Prelude.{◌≡◌, List, ℕ, true, string_bytes};
    ghost use Rattle.oci_types.specs.Tag.{is_tag};

    ghost Value = { List ℕ };

    ghost view = { λ tag. string_bytes tag.text };

    ghost invariant = { λ tag. is_tag (string_bytes tag.text) ≡ true };
}

impl Tag {
    /// The tag that the text is. `NameFault::Tag` where it is none.
    pub fn parse(alloc: Global, text: &str) -> Result<Tag, NameFault>
        ensures read { ReadsWord result text.now (is_tag text.now) NameFault.Tag }
        ensures grammar { ReadsWordBy result (IsTag text.now) NameFault.Tag }
    {
        if !is_tag_text(text) {
            return Err(NameFault::Tag);
        }
        let text = String::from_str(alloc, text)?;
        Ok(Tag { text })
    }

    pub fn as_str(&self) -> &str
        ensures text { result.now ≡ self.now }
        ensures valid { is_tag result.now ≡ true }
    {
        let text = &self.text;
        text.as_str()
    }
}
