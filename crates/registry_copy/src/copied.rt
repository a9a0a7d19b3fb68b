/// What a copy has, and what it has not.
#[derive(Clone, Copy)]
pub struct Copied {
    /// So many repositories were copied.
    pub repos: u64,
    /// So many upload sessions were open, and were not copied.
    pub uploads: u64,
}
