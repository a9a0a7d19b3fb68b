//! How far a check is.
use oci_types::RepoName;
use registry_model::Usage;

/// Where somebody may be shown how far a check is.
pub trait Watch {
    /// So many blobs and manifests of so many have been looked at. It is for a message alone.
    fn looked_at(&self, done: u64, of: u64);
}

/// How many blobs and manifests have been looked at, of how many.
#[derive(Drop)]
pub struct Progress<'a, W: Watch> {
    watch: &'a W,
    done: u64,
    of: u64,
}

/// How many blobs and manifests there are.
fn contents_of(usages: &[(RepoName, Usage)]) -> u64 {
    let mut number: u64 = 0;
    for (_, usage) in usages {
        number = number
            .saturating_add(usage.blobs)
            .saturating_add(usage.manifests);
    }
    number
}

impl<'a, W: Watch> Progress<'a, W> {
    /// A check of all that these repositories hold.
    pub fn new(watch: &'a W, usages: &[(RepoName, Usage)]) -> Progress<'a, W> {
        Progress {
            watch,
            done: 0,
            of: contents_of(usages),
        }
    }

    /// One more has been looked at.
    pub fn step(&mut self) {
        self.done = self.done.saturating_add(1);
        self.watch.looked_at(self.done, self.of);
    }
}
