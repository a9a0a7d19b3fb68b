//! What is supposed of the files that a registry of either layout is opened on.
ghost use Rattle.layout_opening.specs.Opening.{WereOursBeside};
ghost use Rattle.layout_opening.specs.Unwritten.{unknown_was_ours};

use sqlite::{Start, Unknown};

/// Files that hold nothing, or a registry that this program alone wrote: its tables, and in the file of
/// contents, of which `P` says what it held, the bytes that they name. What is proved of a registry over
/// files is proved for all such. Nothing is read to see that it is so.
pub trait WrittenBeside<P: Start>: Start {
    ghost were_ours: { WereOursBeside (record { log = Self.Start.log; db = Self.Start.db }) P.Start.db };
}

impl<P: Start> WrittenBeside<P> for Unknown {
    ghost were_ours = { unknown_was_ours P.Start.db };
}
