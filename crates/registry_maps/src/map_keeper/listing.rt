//! What ordered maps hold, as lists.
ghost use Rattle.std.specs.Prelude.{◌≡◌, ◌++◌, List, IfOk, OnOk};
ghost use Rattle.oci_types.specs.Text.{Text};
ghost use Rattle.registry_model.specs.declared.level.Level.{Level};
ghost use Rattle.registry_model.specs.Lookups.{AreLevelsOn, AreLevelsOver, grants_on, repo_names_of, usages_of};
ghost use Rattle.registry_model.specs.Keeping.{names_shown, usages_shown};
ghost use Rattle.registry_maps.specs.Maps.{world_of};

use super::MapKeeper;
use crate::putting::{push, push_pair};
use oci_types::{RepoName, Token};
use registry_model::{Grant, Level, Usage};
use std::alloc::{AllocError, Global};

impl MapKeeper {
    /// The names of the repositories, in byte order.
    pub(super) fn names(&self, alloc: Global) -> Result<Vec<RepoName>, AllocError>
        ensures { IfOk result
            (λ names. names_shown names ≡ repo_names_of (world_of self.now.repos self.now.grants)) }
    {
        let mut names = Vec::new(alloc);
        for name in self.repos.keys() {
            push(&mut names, name.clone())?;
        }
        Ok(names)
    }

    /// What each repository holds, in byte order of names.
    pub(super) fn all_usages(&self, alloc: Global) -> Result<Vec<(RepoName, Usage)>, AllocError>
        ensures { IfOk result
            (λ all. usages_shown all ≡ usages_of (world_of self.now.repos self.now.grants)) }
    {
        let mut all = Vec::new(alloc);
        for (name, repository) in self.repos.iter() {
            push_pair(&mut all, name.clone(), Ok(repository.usage()))?;
        }
        Ok(all)
    }

    /// The tokens that have a level on a repository, in byte order, with their levels.
    pub(super) fn levels_on(
        &self,
        alloc: Global,
        name: &RepoName,
    ) -> Result<Vec<(Token, Level)>, AllocError>
        ensures { IfOk result
            (λ all. AreLevelsOn (world_of self.now.repos self.now.grants) name.now all.items) }
    {
        let mut all = Vec::new(alloc);
        for (token, levels) in self.grants.iter() {
            if let Some(level) = levels.get(name) {
                push_pair(&mut all, token.clone(), Ok(*level))?;
            }
        }
        Ok(all)
    }

    /// Puts the levels on a repository behind the others, in byte order of the tokens.
    fn push_grants(
        &self,
        alloc: Global,
        name: &RepoName,
        all: &mut Vec<Grant>,
    ) -> Result<(), AllocError>
        ensures { OnOk result ((levels : List (Text × Level))
            × AreLevelsOn (world_of self.now.repos self.now.grants) name.now levels
            × (all.new.items ≡ all.old.items ++ grants_on name.now levels)) }
    {
        for (token, level) in self.levels_on(alloc, name)? {
            let repo = name.clone()?;
            all.push(Grant { repo, token, level })?;
        }
        Ok(())
    }

    /// The levels on each repository, in byte order of the repositories, and on each of the tokens.
    pub(super) fn all_grants(&self, alloc: Global) -> Result<Vec<Grant>, AllocError>
        ensures { IfOk result
            (λ all. let w = world_of self.now.repos self.now.grants in
            AreLevelsOver w (repo_names_of w) all.items) }
    {
        let mut all = Vec::new(alloc);
        for repo in self.repos.keys() {
            self.push_grants(alloc, repo, &mut all)?;
        }
        Ok(all)
    }
}
