//! The file beside a database that has the contents of its registry.
ghost use Rattle.std.specs.Prelude.{◌≡◌, ℕ, List, IsTrue, IfOk};

use sqlite_disk::Disk;

/// What finds the file of contents of one registry, or makes it.
pub trait PackFile<D: Disk> {
    /// Why it does not.
    type Refused: Drop;

    /// The bytes of the file.
    ghost bytes: { Self → List ℕ };

    /// Opens the file of a registry that is there. None is made.
    fn find(&mut self) -> Result<D, Self::Refused>
        ensures bytes { IfOk result (λ disk. D.Disk.seen disk ≡ bytes self.old) }
        ensures usable { IfOk result (λ disk. IsTrue (D.Disk.is_usable disk)) };

    /// Makes the file of a new registry. What is in it is written over.
    fn create(&mut self) -> Result<D, Self::Refused>
        ensures usable { IfOk result (λ disk. IsTrue (D.Disk.is_usable disk)) };

    /// Draws the mark by which the pack of a new registry is told from all others.
    fn draw_mark(&mut self) -> Result<[u8; 16], Self::Refused>;
}
