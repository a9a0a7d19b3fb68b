//! What a registry begins with: its repositories, and the levels of tokens on them.
ghost use Rattle.registry_model.specs.Keeping.{state_of};
ghost use Rattle.registry_orders.specs.Setting.{with_repos, with_levels, world_from, SetsUp};

use registry_model::Keeper;
use registry_orders::Failure;
use registry_orders::failure::of_command;
use registry_orders::options::{GrantOption, RepoOption, Setup};
use registry_service::{AdminCommand, Service};
use std::alloc::Global;

/// Makes the repositories.
fn make_repos<K: Keeper>(
    alloc: Global,
    service: &mut Service<K>,
    repos: &[RepoOption],
) -> Result<(), Failure>
    ensures honest { K.is_honest service.new → K.is_honest service.old }
    ensures made { K.is_honest service.new
        → SetsUp (with_repos (K.kept service.old).world repos.now) result
        (state_of (K.kept service.new)) }
{
    for repo in repos {
        let command = AdminCommand::AddRepo {
            name: &repo.name,
            quota: repo.quota,
        };
        match service.admin(alloc, &command) {
            Ok(()) => {}
            Err(fault) => return Err(of_command(fault)),
        }
    }
    Ok(())
}

/// Gives the levels.
fn give_levels<K: Keeper>(
    alloc: Global,
    service: &mut Service<K>,
    grants: &[GrantOption],
) -> Result<(), Failure>
    ensures honest { K.is_honest service.new → K.is_honest service.old }
    ensures given { K.is_honest service.new
        → SetsUp (with_levels (K.kept service.old).world grants.now) result
        (state_of (K.kept service.new)) }
{
    for grant in grants {
        let command = AdminCommand::Grant {
            token: &grant.token,
            name: &grant.name,
            level: grant.level,
        };
        match service.admin(alloc, &command) {
            Ok(()) => {}
            Err(fault) => return Err(of_command(fault)),
        }
    }
    Ok(())
}

/// Makes the repositories of a setup, then gives its levels. Where a command is refused, what the ones before
/// it did stays.
pub fn set_up<K: Keeper>(
    alloc: Global,
    service: &mut Service<K>,
    setup: &Setup,
) -> Result<(), Failure>
    ensures honest { K.is_honest service.new → K.is_honest service.old }
    ensures begins { K.is_honest service.new
        → SetsUp (world_from (K.kept service.old).world setup.now) result
        (state_of (K.kept service.new)) }
{
    match make_repos(alloc, service, &setup.repos) {
        Ok(()) => give_levels(alloc, service, &setup.grants),
        Err(failure) => Err(failure),
    }
}
