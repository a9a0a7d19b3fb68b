//! Who follows how far the moving of rows is.

/// A table of schema 1 whose rows are moved.
#[derive(Clone, Copy)]
pub enum OldTable {
    Blobs,
    Manifests,
    Sessions,
}

/// Is told how far it is.
pub trait Watch {
    /// `done` of the table's `of` rows are moved.
    fn moved(&mut self, table: OldTable, done: usize, of: usize);
}
