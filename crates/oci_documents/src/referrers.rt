//! The body of a list of referrers, written one referrer after the other: an image index of them (OCI
//! Distribution Specification 1.1, Listing Referrers), as compact JSON with keys in byte order.

ghost use Rattle.std.specs.Prelude.{◌≡◌, List, [], ◌∷◌, ◌++◌, map, string_bytes, option_map, MatchResult};
ghost use Rattle.oci_types.specs.Json.{with_commas};
ghost use Rattle.oci_types.specs.Member.{pairs_of};
ghost use Rattle.oci_types.specs.Referrers.{ReferrerShown, referrer_shown, pair_line, annotations_line, artifact_type_line, referrer_line, referrers_line};
ghost use Rattle.oci_documents.specs.Sink.{Takes};
ghost use Rattle.oci_documents.specs.Referrers.{separator, fixed_line};

use crate::quoting::write_quoted;
use crate::sink::Sink;
use oci_types::{Fault, Referrer};
use std::alloc::Global;
use std::collections::BTreeMap;

/// Writes a comma, unless what follows is the first of its list.
fn separate<S: Sink>(out: &mut S, is_first: bool) -> Result<(), Fault>
    ensures { Takes S.took result out.old out.new (separator is_first) }
{
    if is_first { Ok(()) } else { out.take(b",") }
}

fn write_pair<S: Sink>(out: &mut S, key: &str, text: &str) -> Result<(), Fault>
    ensures { Takes S.took result out.old out.new (pair_line (key.now, text.now)) }
{
    write_quoted(out, key)?;
    out.take(b":")?;
    write_quoted(out, text)
}

fn write_pairs<S: Sink>(out: &mut S, texts: &BTreeMap<String, String>) -> Result<(), Fault>
    ensures { Takes S.took result out.old out.new
        (with_commas (map pair_line (pairs_of texts.now.entries))) }
{
    let mut is_first = true;
    for (key, text) in texts.iter() {
        separate(out, is_first)?;
        write_pair(out, key.as_str(), text.as_str())?;
        is_first = false;
    }
    Ok(())
}

fn write_annotations<S: Sink>(
    out: &mut S,
    annotations: &BTreeMap<String, String>,
) -> Result<(), Fault>
    ensures { Takes S.took result out.old out.new (annotations_line (pairs_of annotations.now.entries)) }
{
    if annotations.is_empty() {
        return Ok(());
    }
    out.take(b"\"annotations\":{")?;
    write_pairs(out, annotations)?;
    out.take(b"},")
}

fn write_artifact_type<S: Sink>(out: &mut S, artifact_type: &Option<String>) -> Result<(), Fault>
    ensures { Takes S.took result out.old out.new
        (artifact_type_line (option_map string_bytes artifact_type.now)) }
{
    let Some(text) = artifact_type else {
        return Ok(());
    };
    out.take(b"\"artifactType\":")?;
    write_quoted(out, text.as_str())?;
    out.take(b",")
}

/// Writes the members that a referrer always has, and its end.
fn write_fixed<S: Sink>(out: &mut S, referrer: &Referrer) -> Result<(), Fault>
    ensures { Takes S.took result out.old out.new (fixed_line (referrer_shown referrer.now)) }
{
    out.take(b"\"digest\":")?;
    write_quoted(out, referrer.digest.as_str())?;
    out.take(b",\"mediaType\":")?;
    write_quoted(out, referrer.kind.media_type())?;
    out.take(b",\"size\":")?;
    out.take(itoa::Buffer::new().format(referrer.size).as_bytes())?;
    out.take(b"}")
}

fn write_referrer<S: Sink>(out: &mut S, referrer: &Referrer) -> Result<(), Fault>
    ensures { Takes S.took result out.old out.new (referrer_line (referrer_shown referrer.now)) }
{
    out.take(b"{")?;
    write_annotations(out, &referrer.annotations)?;
    write_artifact_type(out, &referrer.artifact_type)?;
    write_fixed(out, referrer)
}

/// The body of a list of referrers, as far as it is written. It fails only for want of memory, and is of
/// no more use then.
#[derive(Drop)]
pub struct ReferrersBody<S: Sink> {
    out: S,
    is_empty: bool,
}

impl<S: Sink> ReferrersBody<S> {
    ghost use Rattle.oci_documents.specs.Referrers.{Lists};

    /// The body as far as it stands before the first referrer.
    pub fn begin(alloc: Global) -> Result<ReferrersBody<S>, Fault>
        ensures { MatchResult result (λ body. Lists S.took body []) (λ fault. fault ≡ Fault.Memory) }
    {
        let mut out = S::empty(alloc);
        out.take(b"{\"manifests\":[")?;
        Ok(ReferrersBody {
            out,
            is_empty: true,
        })
    }

    /// Writes one referrer more. Its `annotations` are left out where there are none, and so is its
    /// `artifactType`.
    pub fn add(&mut self, referrer: &Referrer) -> Result<(), Fault>
        ensures { MatchResult result
            (λ _. (rs : List ReferrerShown) → Lists S.took self.old rs
            → Lists S.took self.new (rs ++ referrer_shown referrer.now ∷ []))
            (λ fault. fault ≡ Fault.Memory) }
    {
        separate(&mut self.out, self.is_empty)?;
        write_referrer(&mut self.out, referrer)?;
        self.is_empty = false;
        Ok(())
    }

    /// What took the whole body.
    pub fn end(self) -> Result<S, Fault>
        ensures { MatchResult result
            (λ out. (rs : List ReferrerShown) → Lists S.took self rs → S.took out (referrers_line rs))
            (λ fault. fault ≡ Fault.Memory) }
    {
        let ReferrersBody { mut out, .. } = self;
        out.take(
            b"],\"mediaType\":\"application/vnd.oci.image.index.v1+json\",\"schemaVersion\":2}",
        )?;
        Ok(out)
    }
}
