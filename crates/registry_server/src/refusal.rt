/// Why no further connection is held.
#[derive(Clone, Copy, Debug, PartialEq, Eq)]
pub enum Refusal {
    /// So many are open as may be at once.
    Full,
    /// All 18,446,744,073,709,551,615 numbers were given.
    NoNumber,
    /// Memory is wanting.
    Memory,
}
