/// Where that lies which was taken of the body in hand.
#[derive(Clone, Copy)]
pub enum BodyPlace {
    /// Behind its head, in memory of the connection.
    Buffer,
    /// Apart from its head: it is staged, under the number of the connection.
    Stage,
    /// Nowhere: no answer depends on it, or memory for it was wanting, and it is counted alone.
    Nowhere,
}
