//! What is known of what repositories hold, so that a push need not count it anew.
ghost use Rattle.std.specs.Prelude.{◌≡◌, ◌≤◌, ◌<◌, None};
ghost use Rattle.std.specs.BTreeMap.{btree_map_len};

use crate::next_usage::next_usage;
use oci_types::RepoName;
use registry_model::Usage;
use std::alloc::Global;
use std::collections::BTreeMap;
use store_reads::Change;

/// Of how many repositories the usage is known at once.
const MOST_KNOWN: usize = 4096;

/// The usages of some repositories, at most 4,096. One that there is no memory for is forgotten.
#[derive(Drop)]
pub struct KnownUsages {
    usages: BTreeMap<RepoName, Usage>,
    ghost few: { btree_map_len usages ≤ 4096 },
}

impl KnownUsages {
    ghost use Rattle.oci_types.specs.Text.{Text};
    ghost use Rattle.registry_store.specs.Usages.{known_at, Sets, IsNext, HasQuota};

    /// Nothing is known; takes no memory.
    pub fn new(alloc: Global) -> KnownUsages
        ensures { (name : Text) → known_at result name ≡ None }
    {
        KnownUsages {
            usages: BTreeMap::new(alloc),
        }
    }

    /// What is known of the repository.
    pub fn usage(&self, repo: &RepoName) -> Option<Usage>
        ensures { result ≡ known_at self.now repo.now }
    {
        self.usages.get(repo).copied()
    }

    /// Of this repository nothing is known any more.
    pub fn forget(&mut self, repo: &RepoName)
        ensures { Sets self.old self.new repo.now (λ _. ⊥) }
    {
        self.usages.remove(repo);
    }

    /// Lets one go where as many are known as may be.
    fn make_room(&mut self, repo: &RepoName)
        requires { known_at self.old repo.now ≡ None }
        ensures gone { Sets self.old self.new repo.now (λ _. ⊥) }
        ensures room { btree_map_len self.new.usages < 4096 }
    {
        if self.usages.len() >= MOST_KNOWN {
            self.usages.pop_first();
        }
    }

    /// Adds what was not known, unless memory is wanting.
    fn add(&mut self, name: RepoName, usage: Usage)
        requires unknown { known_at self.old name ≡ None }
        requires room { btree_map_len self.old.usages < 4096 }
        ensures { Sets self.old self.new name (λ u. u ≡ usage) }
    {
        let _old = self.usages.insert(name, usage);
    }

    /// Keeps the usage of the repository, or nothing of it where memory is wanting.
    pub fn keep(&mut self, repo: &RepoName, usage: Usage)
        ensures { Sets self.old self.new repo.now (λ u. u ≡ usage) }
    {
        self.forget(repo);
        self.make_room(repo);
        if let Ok(name) = repo.clone() {
            self.add(name, usage);
        }
    }

    /// Follows a change of the repository: what was known of it is known as changed, or forgotten.
    pub fn follow(&mut self, repo: &RepoName, change: Option<Change>)
        ensures { Sets self.old self.new repo.now (IsNext (known_at self.old repo.now) change) }
    {
        match next_usage(self.usage(repo), change) {
            Some(usage) => self.keep(repo, usage),
            None => self.forget(repo),
        }
    }

    /// The repository has this quota, in bytes; what else was known of it is so still.
    pub fn set_quota(&mut self, repo: &RepoName, quota: u64)
        ensures { Sets self.old self.new repo.now (HasQuota quota (known_at self.old repo.now)) }
    {
        match self.usage(repo) {
            Some(usage) => self.keep(repo, Usage { quota, ..usage }),
            None => {}
        }
    }
}
