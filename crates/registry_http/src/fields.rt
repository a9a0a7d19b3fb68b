ghost use Rattle.std.specs.Prelude.{◌≡◌, length, map, All};
ghost use Rattle.std.specs.Str.{str_eq_ignore_ascii_case};
ghost use Rattle.httparse.specs.Spans.{header_bytes, IsHeaderWithin};
ghost use Rattle.registry_model.specs.Ask.{text_in};
ghost use Rattle.registry_http.specs.Fields.{values, first};

use httparse::spans::HeaderSpan;

/// The values of the fields of one name: how many there are, and the first.
#[derive(Clone, Copy)]
pub struct Found<'a> {
    pub count: usize,
    pub first: Option<&'a [u8]>,
}

/// Whether the two names are the same, in any case.
pub fn same_name(name: &[u8], other: &[u8]) -> bool
    ensures { result ≡ str_eq_ignore_ascii_case name.now other.now }
{
    name.eq_ignore_ascii_case(other)
}

/// Looks for the fields of a name, in any case, among those of a head (RFC 9110, section 5.1).
pub fn values_of<'a>(head: &'a [u8], fields: &[HeaderSpan], name: &[u8]) -> Found<'a>
    requires { All (IsHeaderWithin (length head.now)) fields.now }
    ensures count { result.count ≡ length (values name.now (map (header_bytes head.now) fields.now)) }
    ensures first { text_in result.first ≡ first (values name.now (map (header_bytes head.now) fields.now)) }
{
    let mut count = 0;
    let mut found: Option<&'a [u8]> = None;
    for field in fields {
        if same_name(field.name.of(head), name) {
            if count == 0 {
                found = Some(field.value.of(head));
            }
            count += 1;
        }
    }
    Found {
        count,
        first: found,
    }
}
