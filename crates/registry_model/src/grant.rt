use crate::Level;
use oci_types::{RepoName, Token};

/// That a token has a level on a repository.
pub struct Grant {
    pub repo: RepoName,
    pub token: Token,
    pub level: Level,
}

// (written out, so that where one is dropped it is by a call)
impl Drop for Grant {
    fn drop(self) {
        let Grant {
            repo: _,
            token: _,
            level: _,
        } = self;
    }
}
