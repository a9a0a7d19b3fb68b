//! The limits of a request's bytes (profile), in definitions the numbers of `specs/Limits.antt`.
ghost use Rattle.std.specs.Prelude.{◌≡◌};
ghost use Rattle.registry_http.specs.Limits.{longest_head, most_fields, longest_chunk_line};
ghost use Rattle.registry_http.specs.declared.limits.TheConstants.{LONGEST_HEAD, MOST_FIELDS, LONGEST_CHUNK_LINE};

/// The most bytes of a head, and of a trailer.
pub const LONGEST_HEAD: usize = 16_384;

/// The most fields of a head, and of a trailer.
pub const MOST_FIELDS: usize = 64;

/// The most bytes of the line of a chunk.
pub const LONGEST_CHUNK_LINE: usize = 1_024;

/// These are the numbers of the definitions.
pub fn limits_are_these()
    ensures head { LONGEST_HEAD ≡ longest_head }
    ensures fields { MOST_FIELDS ≡ most_fields }
    ensures chunk_line { LONGEST_CHUNK_LINE ≡ longest_chunk_line }
{}
