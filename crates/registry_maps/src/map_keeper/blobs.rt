//! Blobs of repositories by their names, as a mount takes one from a repository to another.
ghost use Rattle.std.specs.Prelude.{◌≡◌, IfOk};
ghost use Rattle.registry_model.specs.Lookups.{blob_at, put_blob};
ghost use Rattle.registry_model.specs.Keeping.{bytes_in, shared_in};
ghost use Rattle.registry_maps.specs.Maps.{world_of, Makes};

use super::MapKeeper;
use oci_types::{Digest, RepoName};
use registry_model::share;
use std::alloc::{AllocError, Global};
use std::rc::Rc;

impl MapKeeper {
    /// A copy of a blob's bytes, where the repository is there and has it.
    pub(super) fn copy_of_blob(
        &self,
        alloc: Global,
        repo: &RepoName,
        digest: &Digest,
    ) -> Result<Option<Vec<u8>>, AllocError>
        ensures { IfOk result (λ copy. bytes_in copy
            ≡ blob_at (world_of self.now.repos self.now.grants) repo.now digest.now) }
    {
        match self.repos.get(repo) {
            Some(repository) => repository.blob(alloc, digest),
            None => Ok(None),
        }
    }

    /// The same, so that several may hold it.
    pub(super) fn shared_blob(
        &self,
        alloc: Global,
        repo: &RepoName,
        digest: &Digest,
    ) -> Result<Option<Rc<Vec<u8>>>, AllocError>
        ensures { IfOk result (λ shared. shared_in shared
            ≡ blob_at (world_of self.now.repos self.now.grants) repo.now digest.now) }
    {
        let copy = self.copy_of_blob(alloc, repo, digest)?;
        share(alloc, copy)
    }

    /// Adds a blob to a repository that is there.
    pub(super) fn add_blob(
        &mut self,
        repo: &RepoName,
        digest: &Digest,
        bytes: &[u8],
    ) -> Result<(), AllocError>
        ensures { let w = world_of self.old.repos self.old.grants in
            Makes result (put_blob w repo.now digest.now bytes.now) w
            (world_of self.new.repos self.new.grants) }
    {
        let alloc = self.alloc;
        match self.repos.get_mut(repo) {
            Some(repository) => repository.put_blob(alloc, digest, bytes),
            None => Ok(()),
        }
    }
}
