//! What is supposed of a file that a store is opened on.
ghost use Rattle.registry_store.specs.Opening.{WereOurs};
ghost use Rattle.registry_store.specs.Unwritten.{unknown_was_ours};

use sqlite::{Start, Unknown};

/// Files that hold nothing, or a registry that this program alone wrote. What is proved of a store over
/// files is proved for each `Written`; it says nothing of files that anyone else wrote. Nothing is read to
/// see that it is so.
pub trait Written: Start {
    ghost were_ours: { WereOurs (record { log = Self.Start.log; db = Self.Start.db }) };
}

impl Written for Unknown {
    ghost were_ours = { unknown_was_ours };
}
