//! Blobs whose bytes somebody holds, so that who reads one of them holds the same bytes.
ghost use Rattle.std.specs.Prelude.{◌≡◌, Some, IfSome, OnOk};
ghost use Rattle.oci_types.specs.Text.{Text};
ghost use Rattle.registry_model.specs.World.{World};
ghost use Rattle.registry_model.specs.Lookups.{blob_at};
ghost use Rattle.registry_holding.specs.Sharing.{AreIn, AreBlobsOf};

use crate::recent::Recent;
use oci_types::{Digest, RepoName};
use std::alloc::{AllocError, Global};
use std::collections::BTreeMap;
use std::rc::{Rc, Weak};

/// Of how many repositories, and of how many blobs of each, it is known at once.
const MOST_REPOS: usize = 64;

const MOST_BLOBS: usize = 64;

/// The bytes of blobs that were read, by their repositories and digests. Those that were read last are held
/// here, and of the others only where they are: where nobody else holds them any more, they are gone. What is
/// known of one repository does not depend on what is read of another, but for that room, and where there are
/// more than 64.
#[derive(Drop)]
pub struct SharedBlobs {
    alloc: Global,
    map: BTreeMap<RepoName, BTreeMap<Digest, Weak<Vec<u8>>>>,
    recent: Recent,
}

impl SharedBlobs {
    /// None; takes no memory. Of those that were read last at most so many bytes are held.
    pub fn new(alloc: Global, most: usize) -> SharedBlobs
        ensures { (w : World) → AreBlobsOf result.map w }
    {
        SharedBlobs {
            alloc,
            map: BTreeMap::new(alloc),
            recent: Recent::new(alloc, most),
        }
    }

    /// The bytes of a blob, where somebody holds them.
    pub fn find(&self, repo: &RepoName, digest: &Digest) -> Option<Rc<Vec<u8>>>
        ensures { (w : World) → AreBlobsOf self.now.map w
            → IfSome result (λ r. blob_at w repo.now digest.now ≡ Some r.value.items) }
    {
        match self.map.get(repo) {
            Some(blobs) => match blobs.get(digest) {
                Some(bytes) => bytes.upgrade(),
                None => None,
            },
            None => None,
        }
    }

    /// None of them is known any more.
    pub fn forget(&mut self)
        ensures { (w : World) → AreBlobsOf self.new.map w }
    {
        self.recent.forget();
        self.map.clear();
    }

    /// Takes out what is known of a repository.
    fn take(&mut self, repo: &RepoName) -> BTreeMap<Digest, Weak<Vec<u8>>>
        ensures { (w : World) → AreBlobsOf self.old.map w
            → AreIn result w repo.now × AreBlobsOf self.new.map w }
    {
        match self.map.remove(repo) {
            Some(blobs) => blobs,
            None => BTreeMap::new(self.alloc),
        }
    }

    /// Puts in what is known of a repository.
    fn put(
        &mut self,
        repo: &RepoName,
        blobs: BTreeMap<Digest, Weak<Vec<u8>>>,
    ) -> Result<(), AllocError>
        ensures { (w : World) → AreBlobsOf self.old.map w → AreIn blobs w repo.now
            → AreBlobsOf self.new.map w }
    {
        self.map.insert(repo.clone()?, blobs)?;
        Ok(())
    }

    /// As `note`; what is known of the repository is forgotten where memory is wanting.
    fn try_note(
        &mut self,
        repo: &RepoName,
        digest: &Digest,
        bytes: &Rc<Vec<u8>>,
    ) -> Result<(), AllocError>
        ensures { (w : World) → AreBlobsOf self.old.map w
            → blob_at w repo.now digest.now ≡ Some bytes.now.value.items → AreBlobsOf self.new.map w }
    {
        let mut blobs = self.take(repo);
        add(&mut blobs, digest, bytes)?;
        self.put(repo, blobs)
    }

    /// Forgets all where as many repositories are known as may be.
    fn make_room(&mut self)
        ensures { (w : World) → AreBlobsOf self.old.map w → AreBlobsOf self.new.map w }
    {
        if self.map.len() >= MOST_REPOS {
            self.forget();
        }
    }

    /// A blob was read: its bytes are known as long as somebody holds them. Where memory is wanting they are
    /// not.
    pub fn note(&mut self, repo: &RepoName, digest: &Digest, bytes: &Rc<Vec<u8>>)
        ensures { (w : World) → AreBlobsOf self.old.map w
            → blob_at w repo.now digest.now ≡ Some bytes.now.value.items → AreBlobsOf self.new.map w }
    {
        self.make_room();
        if self.try_note(repo, digest, bytes).is_ok() {
            self.recent.hold(bytes);
        }
    }
}

/// Forgets all of a repository where as many of it are known as may be.
fn make_room(blobs: &mut BTreeMap<Digest, Weak<Vec<u8>>>)
    ensures { (w : World) → (repo : Text) → AreIn blobs.old w repo → AreIn blobs.new w repo }
{
    if blobs.len() >= MOST_BLOBS {
        blobs.clear();
    }
}

/// Adds a blob of a repository, in the place of one of the same digest.
fn add(
    blobs: &mut BTreeMap<Digest, Weak<Vec<u8>>>,
    digest: &Digest,
    bytes: &Rc<Vec<u8>>,
) -> Result<(), AllocError>
    ensures { OnOk result ((w : World) → (repo : Text) → AreIn blobs.old w repo
        → blob_at w repo digest.now ≡ Some bytes.now.value.items → AreIn blobs.new w repo) }
{
    make_room(blobs);
    blobs.insert(digest.clone()?, Rc::downgrade(bytes)?)?;
    Ok(())
}
