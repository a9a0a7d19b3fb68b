//! Why calls give up.
ghost use Rattle.std.specs.Prelude.{◌≡◌};

use std::alloc::AllocError;
use std::error::Error;
use std::fmt;

/// Why a call of the registry gave up.
#[derive(Clone, Copy, Debug, PartialEq, Eq)]
pub enum Fault {
    /// Want of memory: nothing has changed.
    Memory,
    /// The storage failed: what keeps the registry is spent.
    Storage,
}

impl fmt::Display for Fault {
    ghost use Rattle.std.specs.Prelude.{Some};
    ghost use Rattle.oci_types.specs.Fault.{fault_text};

    ghost output = { λ fault. Some (fault_text fault) };

    fn fmt<W: fmt::Write>(&self, f: &mut fmt::Formatter<W>) -> fmt::Result {
        f.write_str(match self {
            Fault::Memory => "out of memory",
            Fault::Storage => "storage failed",
        })
    }
}

impl Error for Fault {}

/// Why a text is none of the registry's words.
#[derive(Clone, Copy, Debug, PartialEq, Eq)]
pub enum NameFault {
    /// The grammar of digests has it not.
    DigestGrammar,
    /// A digest of a registered algorithm whose encoded part has another length or other characters.
    DigestLength,
    /// No repository name.
    Name,
    /// No tag.
    Tag,
    /// Neither a tag nor a digest.
    Reference,
    /// No token.
    Token,
    /// Want of memory.
    Memory,
}

impl NameFault {
    ghost use Rattle.oci_types.specs.Fault.{fault_number};

    /// The fault's number, from 1 to 7 in the order of the variants.
    pub fn number(self) -> u8
        ensures { result ≡ fault_number self }
    {
        self as u8 + 1
    }
}

impl fmt::Display for NameFault {
    ghost use Rattle.std.specs.Prelude.{Some};
    ghost use Rattle.oci_types.specs.Fault.{name_fault_text};

    ghost output = { λ fault. Some (name_fault_text fault) };

    fn fmt<W: fmt::Write>(&self, f: &mut fmt::Formatter<W>) -> fmt::Result {
        f.write_str(match self {
            NameFault::DigestGrammar => "not a digest",
            NameFault::DigestLength => "the digest does not have the form of its algorithm",
            NameFault::Name => "not a repository name",
            NameFault::Tag => "not a tag",
            NameFault::Reference => "neither a tag nor a digest",
            NameFault::Token => "not a token",
            NameFault::Memory => "out of memory",
        })
    }
}

impl Error for NameFault {}

impl From<AllocError> for NameFault {
    ghost use Rattle.std.specs.Prelude.{◌≡◌};
    ghost use Rattle.oci_types.specs.declared.fault.NameFault.{NameFault};

    ghost from_gives = { λ _ fault. fault ≡ NameFault.Memory };

    fn from(_error: AllocError) -> NameFault {
        NameFault::Memory
    }
}
