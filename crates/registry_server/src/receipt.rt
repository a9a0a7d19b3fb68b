/// What came of bytes that a connection was given.
#[derive(Clone, Copy, Debug, PartialEq, Eq)]
pub enum Receipt {
    /// They were taken.
    Taken,
    /// There is no room for so many, and nothing has changed.
    NoRoom,
    /// The connection is not open.
    NotOpen,
}
