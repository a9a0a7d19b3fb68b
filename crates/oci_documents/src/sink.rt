//! What a text is written to, piece by piece: what keeps it, and what counts its bytes.

ghost use Rattle.std.specs.Prelude.{◌≡◌, ℕ, List, [], length};
ghost use Rattle.oci_documents.specs.Sink.{Takes};

use oci_types::Fault;
use std::alloc::Global;

/// What takes a text, piece by piece. After an error it is of no more use.
pub trait Sink: Drop {
    /// What it has taken is this text.
    ghost took: { Self → List ℕ → Type 0 };

    /// One that has taken nothing.
    fn empty(alloc: Global) -> Self
        ensures { took result [] };

    /// Takes a piece behind what it has taken; it fails only for want of memory.
    fn take(&mut self, piece: &[u8]) -> Result<(), Fault>
        ensures { Takes took result self.old self.new piece.now };
}

/// The bytes that it has taken.
impl Sink for Vec<u8> {
    ghost took = { λ v text. v.items ≡ text };

    fn empty(alloc: Global) -> Vec<u8> {
        Vec::new(alloc)
    }

    fn take(&mut self, piece: &[u8]) -> Result<(), Fault> {
        match self.extend_from_slice(piece) {
            Ok(()) => Ok(()),
            Err(_) => Err(Fault::Memory),
        }
    }
}

/// How many bytes it has taken, of which it keeps none.
#[derive(Drop)]
pub struct Length {
    pub bytes: u64,
}

impl Sink for Length {
    ghost took = { λ l text. l.bytes ≡ length text };

    fn empty(_alloc: Global) -> Length {
        Length { bytes: 0 }
    }

    // (a length past 64 bits is one that no memory has)
    fn take(&mut self, piece: &[u8]) -> Result<(), Fault> {
        let Some(bytes) = self.bytes.checked_add(piece.len() as u64) else {
            return Err(Fault::Memory);
        };
        self.bytes = bytes;
        Ok(())
    }
}
