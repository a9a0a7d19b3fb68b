ghost use Rattle.std.specs.Prelude.{◌≡◌, List, ◌∷◌, IfOk, OnOk, bytes_eq};
ghost use Rattle.std.specs.Cow.{cow_str_bytes};
ghost use Rattle.registry_model.specs.Ask.{text_in, keys_of};
ghost use Rattle.oci_types.specs.Text.{Text};
ghost use Rattle.registry_http.specs.Asking.{decoded, value_among, keys_in};
ghost use Rattle.registry_http.specs.Decoding.{cow_text, keys_shown, no_keys, or_else, keys_behind};

use form_urlencoded::{decode, raw_pairs};
use registry_model::Query;
use std::alloc::{AllocError, Global};
use std::borrow::CowStr;

/// The values of the keys that a registry reads, decoded.
pub struct Values<'a> {
    digest: Option<CowStr<'a, Global>>,
    mount: Option<CowStr<'a, Global>>,
    from: Option<CowStr<'a, Global>>,
    n: Option<CowStr<'a, Global>>,
    last: Option<CowStr<'a, Global>>,
    artifact_type: Option<CowStr<'a, Global>>,
}

// (written out, so that where one is dropped it is by a call)
impl Drop for Values<'_> {
    fn drop(self) {
        let Values {
            digest: _,
            mount: _,
            from: _,
            n: _,
            last: _,
            artifact_type: _,
        } = self;
    }
}

/// The text, borrowed or not.
fn text_of<'a>(text: &'a CowStr<'_, Global>) -> &'a str
    ensures { result.now ≡ cow_str_bytes text.now }
{
    match text {
        CowStr::Borrowed(text) => text,
        CowStr::Owned(text) => text.as_str(),
    }
}

/// Whether a decoded name is the key.
fn is_key(name: &CowStr<'_, Global>, key: &str) -> bool
    ensures { result ≡ bytes_eq (cow_str_bytes name.now) key.now }
{
    text_of(name) == key
}

/// The text, where there is one.
pub fn text_if<'a>(text: &'a Option<CowStr<'_, Global>>) -> Option<&'a str>
    ensures { text_in result ≡ cow_text text.now }
{
    match text {
        None => None,
        Some(text) => Some(text_of(text)),
    }
}

/// What is kept; or, where nothing is and the name is the key, this value, decoded: bytes that are not UTF-8
/// become U+FFFD.
fn keep<'a>(
    alloc: Global,
    kept: Option<CowStr<'a, Global>>,
    key: &str,
    name: &CowStr<'_, Global>,
    value: &'a [u8],
) -> Result<Option<CowStr<'a, Global>>, AllocError>
    ensures { (raw : Text) (others : List (Text × Text)) → cow_str_bytes name.now ≡ decoded raw
        → IfOk result (λ now. or_else (cow_text kept.entry) (value_among key.now ((raw, value.now) ∷ others))
        ≡ or_else (cow_text now) (value_among key.now others)) }
{
    match kept {
        Some(kept) => Ok(Some(kept)),
        None => {
            if !is_key(name, key) {
                return Ok(None);
            }
            Ok(Some(decode(alloc, value)?))
        }
    }
}

impl<'a> Values<'a> {
    /// None.
    fn none() -> Values<'a>
        ensures { keys_shown result ≡ no_keys }
    {
        Values {
            digest: None,
            mount: None,
            from: None,
            n: None,
            last: None,
            artifact_type: None,
        }
    }

    /// Takes, of the keys of which there is none yet, the value of a pair.
    fn add(
        &mut self,
        alloc: Global,
        name: &CowStr<'_, Global>,
        value: &'a [u8],
    ) -> Result<(), AllocError>
        ensures { (raw : Text) (others : List (Text × Text)) → cow_str_bytes name.now ≡ decoded raw
            → OnOk result (keys_behind (keys_shown self.old) ((raw, value.now) ∷ others)
            ≡ keys_behind (keys_shown self.new) others) }
    {
        self.digest = keep(alloc, self.digest.take(), "digest", name, value)?;
        self.mount = keep(alloc, self.mount.take(), "mount", name, value)?;
        self.from = keep(alloc, self.from.take(), "from", name, value)?;
        self.n = keep(alloc, self.n.take(), "n", name, value)?;
        self.last = keep(alloc, self.last.take(), "last", name, value)?;
        self.artifact_type = keep(
            alloc,
            self.artifact_type.take(),
            "artifactType",
            name,
            value,
        )?;
        Ok(())
    }

    /// Reads a query, each pair of it once: of each key the first counts.
    pub fn of(alloc: Global, query: &'a [u8]) -> Result<Values<'a>, AllocError>
        ensures { IfOk result (λ values. keys_shown values ≡ keys_in query.now) }
    {
        let mut values = Values::none();
        for (name, value) in raw_pairs(query) {
            let name = decode(alloc, name)?;
            values.add(alloc, &name, value)?;
        }
        Ok(values)
    }

    /// The values, for a request.
    pub fn query(&self) -> Query<'_>
        ensures { keys_of result ≡ keys_shown self.now }
    {
        Query {
            digest: text_if(&self.digest),
            mount: text_if(&self.mount),
            from: text_if(&self.from),
            n: text_if(&self.n),
            last: text_if(&self.last),
            artifact_type: text_if(&self.artifact_type),
        }
    }
}
